// The nodes that are not listed, filled in from those that are, a run of places at a time: each symbol is the sum of the listed nodes'
// symbols at its place, each times a multiplier that serves all layers.
#![tactic(auto)]

ghost use Rattle.std.specs.Prelude.{◌≡◌, false, ◌+◌, ◌*◌, ◌/◌, ◌^◌, ◌<◌, ◌≤◌, length, IfSome};
ghost use Rattle.shape.specs.Shape.{most_nodes, size};
ghost use Rattle.shape.specs.Refusals.{shape_bad};
ghost use Rattle.code.specs.Code.{narrow};
ghost use Rattle.rows.specs.Rows.{most_places, Low};
ghost use Rattle.tables.specs.Tables.{table_size, Marks};
ghost use Rattle.patterns.specs.Patterns.{Represented};
ghost use Rattle.filling.specs.Filling.{Summable, Summed, Fillable, FilledRun, Filled, InLayers, Everywhere};

use patterns::{pays, represent};
use picking::run_multipliers;
use rows::{RUN, add_products, store};
use shape::{MODULUS, Shape, two_to};
use tables::{FLAGS, TABLE, marks};

// The sums, at a run of places, of the symbols in some rows of a buffer, each times its multiplier: those of the table's rows from `first` on.
pub fn sum_row(
    run: usize,
    each: usize,
    place: usize,
    rows: &[usize],
    table: &[u16],
    first: usize,
    symbols: &[u16],
) -> [u32; RUN]
    requires { Summable run each place rows.now table.now first symbols.now }
    ensures { Summed run each place rows.now table.now first symbols.now (length rows.now) result }
{
    let mut sums = [0u32; RUN];
    for (j, &row) in rows.iter().enumerate() {
        add_products(
            run,
            table,
            (first + j) * RUN,
            symbols,
            row * each + place,
            &mut sums,
        );
    }
    sums
}

// The nodes that are not listed, at a run of places.
fn fill_run(
    n: usize,
    each: usize,
    place: usize,
    run: usize,
    list: &[usize],
    marked: [bool; FLAGS],
    table: &[u16],
    nodes: &mut [u16],
)
    requires { Fillable n each list.now nodes.old × Marks n list.now marked × (run ≤ most_places) × (place + run ≤ each) × (length table.now ≡ table_size) × Low narrow.modulus table.now }
    ensures { FilledRun n each place run list.now table.now n nodes.old nodes.new }
{
    for i in 0..n {
        if marked[i] {
            continue;
        }
        let sums = sum_row(run, each, place, list, table, i * list.len(), nodes);
        store(MODULUS, run, sums, i * each + place, nodes);
    }
}

// The nodes that are not listed, at a, a + 1, .. of every layer. The table is lent to be worked in.
fn fill_layers(
    s: Shape,
    a: usize,
    run: usize,
    list: &[usize],
    marked: [bool; FLAGS],
    source: Option<&[u16]>,
    table: &mut [u16],
    nodes: &mut [u16],
)
    requires { (shape_bad s ≡ false) × Fillable s.n (size s) list.now nodes.old × Marks s.n list.now marked × IfSome source (λ few. Represented s.n marked list.now s.n few.now) × (run ≤ most_places) × (a + run ≤ 2 ^ s.n) × (length table.old ≡ table_size) × Low narrow.modulus table.old }
    ensures { (length table.new ≡ table_size) × Low narrow.modulus table.new × Filled s.n (size s) list.now (InLayers (2 ^ s.n) a run s.layers) nodes.old nodes.new }
{
    let n = s.n;
    let layers = s.layers;
    let two = two_to(n);
    run_multipliers(n, n, a, run, list, marked, source, table);
    for layer in 0..layers {
        fill_run(
            n,
            layers * two,
            layer * two + a,
            run,
            list,
            marked,
            table,
            nodes,
        );
    }
}

// The places of a run: those of a layer where they are few.
pub fn run_of(n: usize) -> usize
    requires { n ≤ most_nodes }
    ensures { (0 < result) × (result ≤ most_places) × (2 ^ n / result * result ≡ 2 ^ n) }
{
    two_to(n).min(RUN)
}

// The nodes that are not listed, a run after the other.
fn fill_runs(
    s: Shape,
    list: &[usize],
    marked: [bool; FLAGS],
    source: Option<&[u16]>,
    nodes: &mut [u16],
)
    requires { (shape_bad s ≡ false) × Fillable s.n (size s) list.now nodes.old × Marks s.n list.now marked × IfSome source (λ few. Represented s.n marked list.now s.n few.now) }
    ensures { Filled s.n (size s) list.now Everywhere nodes.old nodes.new }
{
    let n = s.n;
    let two = two_to(n);
    let run = run_of(n);
    let mut table = [0u16; TABLE];
    for block in 0..two / run {
        fill_layers(s, block * run, run, list, marked, source, &mut table, nodes);
    }
}

// The nodes that are not listed, from those that are.
pub fn fill(s: Shape, list: &[usize], nodes: &mut [u16])
    requires { (shape_bad s ≡ false) × Fillable s.n (size s) list.now nodes.old }
    ensures { Filled s.n (size s) list.now Everywhere nodes.old nodes.new }
{
    let n = s.n;
    let marked = marks(n, list);
    if !pays(n, marked) {
        fill_runs(s, list, marked, None, nodes);
        return;
    }
    let mut few = [0u16; TABLE];
    represent(n, n, list, marked, &mut few);
    fill_runs(s, list, marked, Some(&few), nodes);
}
