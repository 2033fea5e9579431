// The multipliers of a run of places, picked from those of few a: by the patterns of the run's a, and where the bit of a listed node is 1 by
// the opposite ones.
#![tactic(auto)]

ghost use Rattle.std.specs.Prelude.{◌≡◌, Bool, true, false, List, ℕ, ◌+◌, ◌*◌, ◌^◌, ◌<◌, ◌≤◌, length, IfSome, get_or};
ghost use Rattle.lists.specs.Lists.{member, rising};
ghost use Rattle.shape.specs.Shape.{most_nodes};
ghost use Rattle.code.specs.Code.{narrow};
ghost use Rattle.rows.specs.Rows.{most_places, Low, Stored};
ghost use Rattle.tables.specs.Tables.{table_size, Marks, NodeRows, Table};
ghost use Rattle.patterns.specs.Patterns.{Represented};
ghost use Rattle.picking.specs.Picking.{looked_size, looked_up, looked_at, LookedUp, picked, Pickable};

use patterns::{bit, count, patterns_of};
use rows::RUN;
use shape::MOST_NODES;
use tables::{FLAGS, multipliers};

// A row of patterns for each node.
const LOOKED: usize = MOST_NODES * RUN;

// The pattern to look under, of those up to `last`: the opposite one where a bit is 1.
fn looked_up(bit: u16, pattern: u16, last: u16) -> u16
    requires { pattern ≤ last }
    ensures { result ≡ looked_up bit pattern last }
{
    if bit == 0 { pattern } else { last - pattern }
}

// The patterns to look under at a, a + 1, .. for a listed node, from a place of a buffer on.
fn look_up_row(
    node: usize,
    a: usize,
    run: usize,
    picks: &[u16],
    last: usize,
    at: usize,
    out: &mut [u16],
)
    requires { (node < most_nodes) × (a + run ≤ 2 ^ most_nodes) × (run ≤ length picks.now) × ((t : ℕ) → t < run → get_or picks.now t 0 ≤ last) × (last < most_places) × (at + run ≤ length out.old) }
    ensures { Stored at run (looked_at a node picks.now last) out.old out.new }
{
    for (t, looked) in out[at..at + run].iter_mut().enumerate() {
        *looked = looked_up(bit((a + t) as u16, node), picks[t], last as u16);
    }
}

// The same for each listed node, a row each.
fn look_up_rows(a: usize, run: usize, list: &[usize], picks: &[u16], last: usize, out: &mut [u16])
    requires { ((j : ℕ) → j < length list.now → get_or list.now j 0 < most_nodes) × (length list.now ≤ most_nodes) × (run ≤ most_places) × (a + run ≤ 2 ^ most_nodes) × (run ≤ length picks.now) × ((t : ℕ) → t < run → get_or picks.now t 0 ≤ last) × (last < most_places) × (length out.old ≡ looked_size) × Low most_places out.old }
    ensures { LookedUp a run list.now picks.now last (length list.now) out.new }
{
    for (j, &node) in list.iter().enumerate() {
        look_up_row(node, a, run, picks, last, j * RUN, out);
    }
}

// A row of a table, each element picked from the same row of the table of few a: the patterns to look under stand from `row` on.
fn pick_row(run: usize, looked: &[u16], row: usize, source: &[u16], at: usize, table: &mut [u16])
    requires { (row + run ≤ length looked.now) × ((t : ℕ) → t < run → at + get_or looked.now (row + t) 0 < length source.now) × (at + run ≤ length table.old) }
    ensures { Stored at run (picked looked.now row source.now at) table.old table.new }
{
    for (t, element) in table[at..at + run].iter_mut().enumerate() {
        *element = source[at + usize::from(looked[row + t])];
    }
}

// The rows of the multipliers of the listed nodes in node i.
fn pick_rows(
    n: usize,
    run: usize,
    list: &[usize],
    looked: &[u16],
    source: &[u16],
    i: usize,
    table: &mut [u16],
)
    requires { (n ≤ most_nodes) × (run ≤ most_places) × (rising 0 n list.now ≡ true) × (length looked.now ≡ looked_size) × Low most_places looked.now × (length source.now ≡ table_size) × (i < n) × (length table.old ≡ table_size) }
    ensures { (length table.new ≡ length table.old) × ((m a : ℕ) (marked : List Bool) (picks : List ℕ) (last : ℕ) → Pickable n m a run list.now marked picks last source.now → LookedUp a run list.now picks last (length list.now) looked.now → i < m → member i list.now ≡ false → NodeRows n (◌+◌ a) run list.now i (length list.now) table.old table.new) }
{
    let k = list.len();
    for j in 0..k {
        pick_row(run, looked, j * RUN, source, (i * k + j) * RUN, table);
    }
}

// The multipliers at a, a + 1, .. of the listed nodes in each node below m that is not listed.
fn pick(
    n: usize,
    m: usize,
    a: usize,
    run: usize,
    list: &[usize],
    marked: [bool; FLAGS],
    source: &[u16],
    table: &mut [u16],
)
    requires { (n ≤ most_nodes) × (m ≤ n) × (run ≤ most_places) × (a + run ≤ 2 ^ n) × (rising 0 n list.now ≡ true) × Marks n list.now marked × Represented n marked list.now m source.now × (length table.old ≡ table_size) × Low narrow.modulus table.old }
    ensures { Table n a run list.now m table.new }
{
    let picks = patterns_of(n, marked, a, run);
    let last = count(n, marked) - 1;
    let mut looked = [0u16; LOOKED];
    look_up_rows(a, run, list, &picks, last, &mut looked);
    for i in 0..m {
        if marked[i] {
            continue;
        }
        pick_rows(n, run, list, &looked, source, i, table);
    }
}

// The multipliers at a, a + 1, .., picked where there is what to pick from.
pub fn run_multipliers(
    n: usize,
    m: usize,
    a: usize,
    run: usize,
    list: &[usize],
    marked: [bool; FLAGS],
    source: Option<&[u16]>,
    table: &mut [u16],
)
    requires { (n ≤ most_nodes) × (m ≤ n) × (run ≤ most_places) × (a + run ≤ 2 ^ n) × (rising 0 n list.now ≡ true) × Marks n list.now marked × IfSome source (λ few. Represented n marked list.now m few.now) × (length table.old ≡ table_size) × Low narrow.modulus table.old }
    ensures { Table n a run list.now m table.new }
{
    match source {
        Some(few) => pick(n, m, a, run, list, marked, few, table),
        None => multipliers(n, m, a, run, list, marked, table),
    }
}
