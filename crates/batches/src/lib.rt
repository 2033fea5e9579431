// The symbols of one batch, by the members of a rank's class: sums of two places, own pairs stored at both, and one place from the other. The
// other place of a sum is its first one, exclusive or the rank's turn.
#![tactic(auto)]

ghost use Rattle.std.specs.Prelude.{◌≡◌, true, ℕ, ◌+◌, ◌*◌, ◌%◌, ◌<◌, ◌≤◌, length, get_or};
ghost use Rattle.std.specs.Int.Bits.{bit_xor};
ghost use Rattle.lists.specs.Lists.{range, element, tabulate};
ghost use Rattle.field.specs.Residues.{minus};
ghost use Rattle.rows.specs.Rows.{Low};
ghost use Rattle.code.specs.Code.{narrow};
ghost use Rattle.batches.specs.Batches.{Apart, added_in, Remain, remainder, PairedIn, LowNear, left_in, puts, crossed_from, Stored, turned};

use rows::{RUN, run_from};
use shape::MODULUS;

// The sum of two symbols, less 65535 where it is more: 65535 is 255 times the modulus.
fn folded(one: u16, other: u16) -> u16
    ensures { result % narrow.modulus ≡ (one + other) % narrow.modulus }
{
    let sum = u32::from(one) + u32::from(other);
    (sum % 65536 + sum / 65536) as u16
}

// The sums of one batch where every a is a member, not yet modulo 257.
fn fold_rows(turn: usize, symbols: &[u16], sums: &mut [u16])
    requires { Apart (range 0 (length sums.old)) 0 turn (length symbols.now) }
    ensures { Remain narrow.modulus (length sums.old) (added_in narrow (range 0 (length sums.old)) turn symbols.now) sums.new }
{
    for (x, sum) in sums.iter_mut().enumerate() {
        *sum = folded(symbols[x], symbols[x ^ turn]);
    }
}

// The sums of one batch, whose symbols these are, not yet modulo 257: "the helper's symbol at (layer 0, a) plus its symbol at (partner
// layer, a with bit i_u flipped)".
fn fold_batch(every: bool, members: &[u16], turn: usize, symbols: &[u16], sums: &mut [u16])
    requires { (every ≡ true → members.now ≡ range 0 (length members.now)) × (Apart members.now 0 turn (length symbols.now)) × (length sums.old ≡ length members.now) }
    ensures { Remain narrow.modulus (length members.now) (added_in narrow members.now turn symbols.now) sums.new }
{
    if every {
        fold_rows(turn, symbols, sums);
        return;
    }
    for (x, &member) in members.iter().enumerate() {
        let a = member as usize;
        sums[x] = folded(symbols[a], symbols[a ^ turn]);
    }
}

// All sums modulo 257.
fn reduce(sums: &mut [u16])
    ensures { sums.new ≡ tabulate (length sums.old) (remainder narrow.modulus sums.old) }
{
    let q = MODULUS as u16;
    for sum in sums.iter_mut() {
        *sum %= q;
    }
}

// The sums of one batch; `every` says that every a is a member, and then no table is read. They are reduced by themselves, a row of numbers of two bytes: such a loop a compiler turns into vector instructions.
pub fn add_batch(every: bool, members: &[u16], turn: usize, symbols: &[u16], sums: &mut [u16])
    requires { (every ≡ true → members.now ≡ range 0 (length members.now)) × (Apart members.now 0 turn (length symbols.now)) × (length sums.old ≡ length members.now) }
    ensures { sums.new ≡ tabulate (length members.now) (added_in narrow members.now turn symbols.now) }
{
    fold_batch(every, members, turn, symbols, sums);
    reduce(sums);
}

// Stores the own pairs of one batch at both places of each sum, two sums at a time: first places lie close together, and so do the others, and a
// processor is faster where stores to one line of its memory follow each other.
pub fn pair_batch(members: &[u16], turn: usize, pairs: &[u16], symbols: &mut [u16])
    requires { (Apart members.now 0 turn (length symbols.old)) × (Apart members.now turn 0 (length symbols.old)) × (length pairs.now ≡ length members.now * 2) }
    ensures { PairedIn members.now turn pairs.now (length members.now) symbols.new }
{
    let count = members.len();
    let mut x = 0;
    // Two sums at a time, by number: with `chunks_exact(2)` zipped with `chunks_exact(4)` the proof did not close.
    while x + 1 < count {
        let a = members[x] as usize;
        let b = members[x + 1] as usize;
        symbols[a] = pairs[x * 2];
        symbols[b] = pairs[x * 2 + 2];
        symbols[a ^ turn] = pairs[x * 2 + 1];
        symbols[b ^ turn] = pairs[x * 2 + 3];
        x += 2;
    }
    if x < count {
        let a = members[x] as usize;
        symbols[a] = pairs[x * 2];
        symbols[a ^ turn] = pairs[x * 2 + 1];
    }
}

// What is left of a sum of two symbols where one of them is taken away. Both are below the modulus: one subtraction of it serves for a division.
fn difference(sum: u16, symbol: u16) -> u16
    requires { (sum < narrow.modulus) × (symbol < narrow.modulus) }
    ensures { result ≡ minus narrow.modulus sum symbol }
{
    let modulus = MODULUS as u16;
    let more = sum + modulus - symbol;
    if more < modulus { more } else { more - modulus }
}

// What is left of a row of sums where a row of symbols is taken away.
fn differences(sums: &[u16], symbols: &[u16], left: &mut [u16])
    requires { (length sums.now ≡ length left.old) × (length symbols.now ≡ length left.old) × (Low narrow.modulus sums.now) × (Low narrow.modulus symbols.now) }
    ensures { Stored (length left.old) (λ x. x) (λ x. minus narrow.modulus (get_or sums.now x 0) (get_or symbols.now x 0)) left.old left.new }
{
    // Of what is written through an `iter_mut` in a zip a proof knows the length alone.
    for (x, rest) in left.iter_mut().enumerate() {
        *rest = difference(sums[x], symbols[x]);
    }
}

// Stores a row at the far places of the a from x on.
fn store_row(x: usize, turn: usize, row: &[u16], symbols: &mut [u16])
    requires { (x + length row.now ≤ length symbols.old) × ((i : ℕ) → i < length row.now → bit_xor (x + i) turn < length symbols.old) }
    ensures { symbols.new ≡ puts (λ i. bit_xor (x + i) turn) (element row.now) (length row.now) symbols.old }
{
    for (i, &symbol) in row.iter().enumerate() {
        symbols[(x + i) ^ turn] = symbol;
    }
}

// Crosses a run of sums from x on where every a is a member: near places are a row, and differences of rows, in a lent one as long as the run,
// a compiler turns into vector instructions.
fn cross_run(x: usize, turn: usize, sums: &[u16], left: &mut [u16], symbols: &mut [u16])
    requires apart { (Apart (range 0 (length sums.now)) 0 turn (length symbols.old)) × (x + length left.old ≤ length sums.now) × (length sums.now ≤ length symbols.old) }
    requires low { (Low narrow.modulus sums.now) × (LowNear narrow.modulus (range 0 (length sums.now)) 0 symbols.old) }
    ensures { symbols.new ≡ crossed_from narrow (range 0 (length sums.now)) 0 turn sums.now symbols.old x (length left.old) }
{
    let end = x + left.len();
    differences(&sums[x..end], &symbols[x..end], left);
    store_row(x, turn, left, symbols);
}

// Crosses the sums of a batch where every a is a member.
fn cross_rows(turn: usize, sums: &[u16], symbols: &mut [u16])
    requires apart { (Apart (range 0 (length sums.now)) 0 turn (length symbols.old)) × (length sums.now ≤ length symbols.old) }
    requires low { (Low narrow.modulus sums.now) × (LowNear narrow.modulus (range 0 (length sums.now)) 0 symbols.old) }
    ensures { Stored (length sums.now) (turned (range 0 (length sums.now)) turn) (left_in narrow (range 0 (length sums.now)) 0 sums.now symbols.old) symbols.old symbols.new }
{
    let count = sums.len();
    let mut left = [0u16; RUN];
    let mut x = 0;
    // The step is the run's length.
    while x < count {
        let run = run_from(count, x);
        cross_run(x, turn, sums, &mut left[..run], symbols);
        x += run;
    }
}

// Stores at one place of each sum of a batch what is left of the sum where the symbol at its other place is taken away. Where every a is a
// member, and the near places are the first, it is done by rows.
pub fn cross_batch(
    every: bool,
    members: &[u16],
    near: usize,
    far: usize,
    sums: &[u16],
    symbols: &mut [u16],
)
    requires apart { (every ≡ true → members.now ≡ range 0 (length members.now)) × (Apart members.now near far (length symbols.old)) × (length sums.now ≡ length members.now) }
    requires low { (Low narrow.modulus sums.now) × (LowNear narrow.modulus members.now near symbols.old) }
    ensures { Stored (length members.now) (turned members.now far) (left_in narrow members.now near sums.now symbols.old) symbols.old symbols.new }
{
    if every & (near == 0) {
        cross_rows(far, sums, symbols);
        return;
    }
    for (x, &member) in members.iter().enumerate() {
        let a = member as usize;
        symbols[a ^ far] = difference(sums[x], symbols[a ^ near]);
    }
}
