// Hearing a helper (document 02 §8): its message is added to the kept sums of the equations, and the helper noted in the record.
#![tactic(auto)]

ghost use Rattle.std.specs.Prelude.{◌≡◌, ◌+◌, ◌*◌, ◌%◌, ◌≤◌, ◌<◌, length};
ghost use Rattle.lists.specs.Lists.{element};
ghost use Rattle.shape.specs.Shape.{most_nodes};
ghost use Rattle.column.specs.Solving.{most_entries};
ghost use Rattle.code.specs.Code.{narrow};
ghost use Rattle.rows.specs.Rows.{Low, Stored};
ghost use Rattle.arrival.specs.Sums.{added_to};
ghost use Rattle.arrival.specs.Record.{heard_count, noted};
ghost use Rattle.arrival.specs.Promises.{Hears};
ghost use Rattle.hearing.specs.Steps.{BothPowers, summed, Hearable};

use arrival::judge_hear;
use classes::{Layout, laid_out, list_members, rank_class, rank_of, with_table};
use code::point;
use column::ENTRIES;
use completion::powers;
use shape::{MODULUS, Refusal, Shape, two_to};

// Two rows of powers.
const ROWS: usize = 2 * ENTRIES;

// The first r powers of a row, from a place on.
fn put_row(r: usize, row: [u32; ENTRIES], at: usize, out: &mut [u32; ROWS])
    requires { (r ≤ most_entries) × (length row ≡ most_entries) × (length out.old ≡ 2 * most_entries) × (at + r ≤ 2 * most_entries) }
    ensures { Stored at r (element row) out.old out.new }
{
    out[at..at + r].copy_from_slice(&row[..r]);
}

// The first r powers of both points of a node: in the first row where its bit of a is 0, in the second where it is 1.
fn both_powers(r: usize, i: usize) -> [u32; ROWS]
    requires { (r ≤ most_entries) × (i < most_nodes) }
    ensures { BothPowers r i result }
{
    let mut out = [0u32; ROWS];
    put_row(r, powers(MODULUS, r, point(0, i)), 0, &mut out);
    put_row(
        r,
        powers(MODULUS, r, point(two_to(i), i)),
        ENTRIES,
        &mut out,
    );
    out
}

// Adds a symbol of a message, times the powers of its point, to the r sums that are kept for it.
fn add_symbol(r: usize, symbol: u16, factors: &[u32], from: usize, at: usize, sums: &mut [u16])
    requires { (from + r ≤ length factors.now) × (at + r ≤ length sums.old) × Low narrow.modulus factors.now }
    ensures { Stored at r (summed symbol factors.now from at sums.old) sums.old sums.new }
{
    for (t, sum) in sums[at..at + r].iter_mut().enumerate() {
        *sum = ((u32::from(*sum) + u32::from(symbol) * factors[from + t]) % MODULUS) as u16;
    }
}

// The member of a class behind its member j, and behind the last the first.
fn next_member(g: Layout, j: usize) -> usize
    requires { j < g.members }
    ensures { (result < g.members) × (result ≡ (j + 1) % g.members) }
{
    let size = g.members;
    if j + 1 < size { j + 1 } else { 0 }
}

// Adds a message to rank u to the sums; the members of the rank's class go to a lent table, and serve every batch.
fn add_with(
    g: Layout,
    dead: &[usize],
    u: usize,
    helper: usize,
    class: &mut [u16],
    message: &[u16],
    sums: &mut [u16],
)
    requires { Hearable dead.now g u helper message.now sums.old × (g.places ≤ length class.old) }
    ensures { sums.new ≡ added_to narrow g.shape dead.now u helper message.now sums.old }
{
    let s = g.shape;
    let r = s.n - s.k;
    list_members(g, dead, rank_class(g, dead, u), class);
    let factors = both_powers(r, helper);
    let mut j = 0;
    for (x, &symbol) in message.iter().enumerate() {
        let row = (class[j] as usize >> helper) % 2;
        add_symbol(r, symbol, &factors, row * ENTRIES, x * r, sums);
        j = next_member(g, j);
    }
}

// The same, with a table of its own.
fn add_message(
    g: Layout,
    dead: &[usize],
    u: usize,
    helper: usize,
    message: &[u16],
    sums: &mut [u16],
)
    requires { Hearable dead.now g u helper message.now sums.old }
    ensures { sums.new ≡ added_to narrow g.shape dead.now u helper message.now sums.old }
{
    with_table(
        g.places,
        &mut |class| add_with(g, dead, u, helper, class, message, sums),
    );
}

// Notes a helper in the record of those heard.
fn note(helper: usize, heard: &mut [usize])
    requires { heard_count heard.old + 1 < length heard.old }
    ensures { heard.new ≡ noted helper heard.old }
{
    let count = heard[0] + 1;
    heard[count] = helper;
    heard[0] = count;
}

// Hears a helper: adds its message to the sums that the new node keeps, and notes it in the record.
pub fn hear(
    s: Shape,
    dead: &[usize],
    helpers: &[usize],
    new: usize,
    helper: usize,
    message: &[u16],
    sums: &mut [u16],
    heard: &mut [usize],
) -> Result<(), Refusal>
    ensures { Hears s dead.now helpers.now new helper message.now sums.old sums.new heard.old heard.new result }
{
    judge_hear(s, dead, helpers, new, helper, message, sums, heard)?;
    let g = laid_out(s, dead);
    let u = rank_of(g, dead, new);
    add_message(g, dead, u, helper, message, sums);
    note(helper, heard);
    Ok(())
}
