// Rows: what stands at consecutive places, worked on together, one loop for each step, which a compiler turns into vector instructions.
#![tactic(auto)]

ghost use Rattle.std.specs.Prelude.{◌≡◌, ℕ, ◌+◌, ◌*◌, ◌%◌, ◌<◌, ◌≤◌, length, get_or};
ghost use Rattle.lists.specs.Lists.{element};
ghost use Rattle.inverting.specs.Inverses.{Pivots};
ghost use Rattle.rows.specs.Rows.{most_places, most_modulus, Low, Stored, scaled, quotient, added, remainder, copied};

use inverting::inverted;

// The most places of a row.
pub const RUN: usize = 64;

// The length of the run from `first` on: what is left where that is less.
pub fn run_from(size: usize, first: usize) -> usize
    requires { first < size }
    ensures { (0 < result) × (result ≤ most_places) × (first + result ≤ size) }
{
    (size - first).min(RUN)
}

// Each element of a row times the difference of two points, whose rows start at x and y.
pub fn scale(q: u32, run: usize, points: &[u32], x: usize, y: usize, row: &mut [u32; RUN])
    requires { (0 < q) × (q ≤ most_modulus) × (run ≤ most_places) × (x + run ≤ length points.now) × (y + run ≤ length points.now) × Low q points.now × Low q row.old × (length row.old ≡ most_places) }
    ensures { Stored 0 run (scaled q points.now x y row.old) row.old row.new }
{
    for (i, product) in row[..run].iter_mut().enumerate() {
        *product = *product * (points[x + i] + q - points[y + i]) % q;
    }
}

// The inverses of a row.
pub fn inverses(q: u32, run: usize, row: [u32; RUN]) -> [u32; RUN]
    requires { (1 < q) × (run ≤ most_places) × (length row ≡ most_places) }
    ensures { Low q result × (Pivots q run (element row) → (i : ℕ) → i < run → (element row i * element result i) % q ≡ 1) }
{
    inverted(q, run, &row)
}

// The opposite of each element of a row times one of another row, from a place of a table on.
pub fn quotients(
    q: u32,
    run: usize,
    tops: [u32; RUN],
    inverted: [u32; RUN],
    at: usize,
    table: &mut [u16],
)
    requires { (0 < q) × (q ≤ most_modulus) × (run ≤ most_places) × (at + run ≤ length table.old) × Low q tops × Low q inverted }
    ensures { Stored at run (quotient q tops inverted) table.old table.new }
{
    for (i, multiplier) in table[at..at + run].iter_mut().enumerate() {
        *multiplier = ((q - tops[i]) * inverted[i] % q) as u16;
    }
}

// A product more in each of a row of sums: factors from f on, symbols from s on.
pub fn add_products(
    run: usize,
    factors: &[u16],
    f: usize,
    symbols: &[u16],
    s: usize,
    sums: &mut [u32; RUN],
)
    requires { (run ≤ most_places) × (f + run ≤ length factors.now) × (s + run ≤ length symbols.now) × ((i : ℕ) → i < run → added factors.now f symbols.now s sums.old i < 4294967296) × (length sums.old ≡ most_places) }
    ensures { Stored 0 run (added factors.now f symbols.now s sums.old) sums.old sums.new }
{
    for (i, sum) in sums[..run].iter_mut().enumerate() {
        *sum += u32::from(factors[f + i]) * u32::from(symbols[s + i]);
    }
}

// A row of sums modulo q, from a place of a buffer on.
pub fn store(q: u32, run: usize, sums: [u32; RUN], at: usize, out: &mut [u16])
    requires { (0 < q) × (q ≤ most_modulus) × (run ≤ most_places) × (at + run ≤ length out.old) }
    ensures { Stored at run (remainder q sums) out.old out.new }
{
    for (i, symbol) in out[at..at + run].iter_mut().enumerate() {
        *symbol = (sums[i] % q) as u16;
    }
}

// Symbols from s on, copied to a place of a buffer.
pub fn copy(count: usize, symbols: &[u16], s: usize, at: usize, out: &mut [u16])
    requires { (s + count ≤ length symbols.now) × (at + count ≤ length out.old) }
    ensures { Stored at count (copied symbols.now s) out.old out.new }
{
    // A loop: by `copy_from_slice` the library for C would need memmove from outside as well.
    for (i, symbol) in out[at..at + count].iter_mut().enumerate() {
        *symbol = symbols[s + i];
    }
}
