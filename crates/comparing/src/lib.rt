// Whether the nodes that are not listed hold what would be filled in from those that are, a run of places at a time: as in filling, and
// nothing is written.
// The functions stay beside their twins of filling: those write the nodes that they read, these stop at the first row that differs, and a
// trait over both, with a result for each, is no shorter.
#![tactic(auto)]

ghost use Rattle.std.specs.Prelude.{◌≡◌, true, false, ◌+◌, ◌^◌, ◌<◌, ◌≤◌, length, IfSome};
ghost use Rattle.shape.specs.Shape.{size};
ghost use Rattle.shape.specs.Refusals.{shape_bad};
ghost use Rattle.code.specs.Code.{narrow};
ghost use Rattle.rows.specs.Rows.{most_places, Low, Stored, remainder};
ghost use Rattle.tables.specs.Tables.{table_size, Marks};
ghost use Rattle.patterns.specs.Patterns.{Represented};
ghost use Rattle.filling.specs.Filling.{Fillable, FilledRun, Filled, InLayers};
ghost use Rattle.comparing.specs.Comparing.{HeldTo};

use filling::{run_of, sum_row};
use patterns::{pays, represent};
use picking::run_multipliers;
use rows::RUN;
use shape::{MODULUS, Shape, two_to};
use tables::{FLAGS, TABLE, marks};

// Whether a row of sums modulo q is what a buffer holds from a place on, so that storing it would change nothing.
fn same_row(q: u32, run: usize, sums: [u32; RUN], at: usize, symbols: &[u16]) -> bool
    requires { (0 < q) × (run ≤ most_places) × (at + run ≤ length symbols.now) }
    ensures { result ≡ true → Stored at run (remainder q sums) symbols.now symbols.now }
{
    let mut same = true;
    for (&sum, &symbol) in sums[..run].iter().zip(&symbols[at..at + run]) {
        same &= sum % q == u32::from(symbol);
    }
    same
}

// Whether the nodes that are not listed hold, at a run of places, what would be filled in.
fn run_met(
    n: usize,
    each: usize,
    place: usize,
    run: usize,
    list: &[usize],
    marked: [bool; FLAGS],
    table: &[u16],
    nodes: &[u16],
) -> bool
    requires { Fillable n each list.now nodes.now × Marks n list.now marked × (run ≤ most_places) × (place + run ≤ each) × (length table.now ≡ table_size) × Low narrow.modulus table.now }
    ensures { result ≡ true → FilledRun n each place run list.now table.now n nodes.now nodes.now }
{
    for i in 0..n {
        if marked[i] {
            continue;
        }
        let sums = sum_row(run, each, place, list, table, i * list.len(), nodes);
        if !same_row(MODULUS, run, sums, i * each + place, nodes) {
            return false;
        }
    }
    true
}

// Likewise at a, a + 1, .. of every layer. The table is lent to be worked in.
fn layers_met(
    s: Shape,
    a: usize,
    run: usize,
    list: &[usize],
    marked: [bool; FLAGS],
    source: Option<&[u16]>,
    table: &mut [u16],
    nodes: &[u16],
) -> bool
    requires { (shape_bad s ≡ false) × Fillable s.n (size s) list.now nodes.now × Marks s.n list.now marked × IfSome source (λ few. Represented s.n marked list.now s.n few.now) × (run ≤ most_places) × (a + run ≤ 2 ^ s.n) × (length table.old ≡ table_size) × Low narrow.modulus table.old }
    ensures { (length table.new ≡ table_size) × Low narrow.modulus table.new × (result ≡ true → Filled s.n (size s) list.now (InLayers (2 ^ s.n) a run s.layers) nodes.now nodes.now) }
{
    let n = s.n;
    let layers = s.layers;
    let two = two_to(n);
    run_multipliers(n, n, a, run, list, marked, source, table);
    for layer in 0..layers {
        if !run_met(
            n,
            layers * two,
            layer * two + a,
            run,
            list,
            marked,
            table,
            nodes,
        ) {
            return false;
        }
    }
    true
}

// How many a, a run after the other, have at every layer what would be filled in.
fn runs_met(
    s: Shape,
    list: &[usize],
    marked: [bool; FLAGS],
    source: Option<&[u16]>,
    nodes: &[u16],
) -> usize
    requires { (shape_bad s ≡ false) × Fillable s.n (size s) list.now nodes.now × Marks s.n list.now marked × IfSome source (λ few. Represented s.n marked list.now s.n few.now) }
    ensures { HeldTo s list.now nodes.now result }
{
    let n = s.n;
    let two = two_to(n);
    let run = run_of(n);
    let mut table = [0u16; TABLE];
    for block in 0..two / run {
        if !layers_met(s, block * run, run, list, marked, source, &mut table, nodes) {
            return block * run;
        }
    }
    two
}

// How many a, a run after the other, have at every layer what would be filled in, by multipliers picked from few where that pays.
pub fn listed_met(s: Shape, list: &[usize], nodes: &[u16]) -> usize
    requires { (shape_bad s ≡ false) × Fillable s.n (size s) list.now nodes.now }
    ensures { HeldTo s list.now nodes.now result }
{
    let n = s.n;
    let marked = marks(n, list);
    if !pays(n, marked) {
        return runs_met(s, list, marked, None, nodes);
    }
    let mut few = [0u16; TABLE];
    represent(n, n, list, marked, &mut few);
    runs_met(s, list, marked, Some(&few), nodes)
}
