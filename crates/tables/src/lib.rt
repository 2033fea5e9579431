// The multipliers of a run of places, worked out together: for each entry of a column that is not listed, a row for each listed one.
#![tactic(auto)]

ghost use Rattle.std.specs.Prelude.{◌≡◌, true, false, not, cond, List, ℕ, ◌+◌, ◌*◌, ◌^◌, ◌<◌, ◌≤◌, length, get_or};
ghost use Rattle.lists.specs.Lists.{element, member, rising};
ghost use Rattle.shape.specs.Shape.{most_nodes};
ghost use Rattle.column.specs.Solving.{most_entries};
ghost use Rattle.code.specs.Code.{narrow};
ghost use Rattle.rows.specs.Rows.{most_places, Low, Stored};
ghost use Rattle.tables.specs.Tables.{flags, points_size, table_size, point_of, opposite_of, node_points, entry_points, PointRows, Columns, Marks, Idle, DifferenceRow, RowsOver, TableOver, TableOf, Table};

use code::point;
use column::ENTRIES;
use rows::{RUN, inverses, quotients, scale};
use shape::{MODULUS, MOST_NODES, listed};

// A flag for each entry. There are more, so that they are copied in whole words, and read again without waiting for that.
pub const FLAGS: usize = 16;

// A row of points for each entry.
const POINTS: usize = ENTRIES * RUN;

// A row of multipliers for each node and each listed node.
pub const TABLE: usize = MOST_NODES * MOST_NODES * RUN;

// Which of n entries are listed, or which are not; the entries from n on have no flag.
fn flagged(n: usize, list: &[usize], wanted: bool) -> [bool; FLAGS]
    requires { n ≤ most_entries }
    ensures { (length result ≡ flags) × ((i : ℕ) → i < n → get_or result i false ≡ cond wanted (member i list.now) (not (member i list.now))) × ((i : ℕ) → n ≤ i → get_or result i false ≡ false) }
{
    let mut out = [false; FLAGS];
    for (i, flag) in out[..n].iter_mut().enumerate() {
        *flag = listed(list, i) == wanted;
    }
    out
}

// Which of n entries are listed.
pub fn marks(n: usize, list: &[usize]) -> [bool; FLAGS]
    requires { n ≤ most_entries }
    ensures { Marks n list.now result }
{
    flagged(n, list, true)
}

// Which of n nodes are not listed; the entry behind them is none of them.
pub fn idle(n: usize, list: &[usize]) -> [bool; FLAGS]
    requires { n ≤ most_nodes }
    ensures { Idle n list.now result }
{
    flagged(n, list, false)
}

// The points of a node at some a, or their opposites, from a place on.
fn point_row(node: usize, opposite: bool, each: &[usize], run: usize, at: usize, out: &mut [u32])
    requires { (node < most_nodes) × (at + run ≤ length out.old) × (run ≤ length each.now) }
    ensures { Stored at run (λ t. cond opposite (opposite_of (element each.now) node t) (point_of (element each.now) node t)) out.old out.new }
{
    for (t, x) in out[at..at + run].iter_mut().enumerate() {
        let p = point(each[t], node);
        *x = if opposite { MODULUS - p } else { p };
    }
}

// The points of n nodes at some a. The rows are lent: returned, they would be copied.
fn point_rows(n: usize, each: &[usize], run: usize, out: &mut [u32])
    requires { (n ≤ most_nodes) × (run ≤ most_places) × (run ≤ length each.now) × (length out.old ≡ points_size) × Low narrow.modulus out.old }
    ensures { PointRows n (node_points n (element each.now)) run out.new }
{
    for node in 0..n {
        point_row(node, false, each, run, node * RUN, out);
    }
}

// The product, at each place, of the point of entry x less those of the entries that are neither listed nor i.
fn differences(
    n: usize,
    run: usize,
    points: &[u32],
    marked: [bool; FLAGS],
    i: usize,
    x: usize,
) -> [u32; RUN]
    requires { (n ≤ most_entries) × (run ≤ most_places) × (length points.now ≡ points_size) × Low narrow.modulus points.now × (x < n) }
    ensures { DifferenceRow n run points.now marked i x n result }
{
    let mut out = [1u32; RUN];
    for m in 0..n {
        if marked[m] | (m == i) {
            continue;
        }
        scale(MODULUS, run, points, x * RUN, m * RUN, &mut out);
    }
    out
}

// The rows of the multipliers of the listed entries in entry i.
fn entry_rows(
    n: usize,
    run: usize,
    points: &[u32],
    list: &[usize],
    marked: [bool; FLAGS],
    i: usize,
    table: &mut [u16],
)
    requires { (n ≤ most_entries) × (run ≤ most_places) × (length points.now ≡ points_size) × Low narrow.modulus points.now × (rising 0 n list.now ≡ true) × (i < n) × (length table.old ≡ table_size) × (get_or marked i false ≡ false) × (n * length list.now * most_places ≤ table_size) }
    ensures { (length table.new ≡ length table.old) × ((P : ℕ → List ℕ) → Columns n P → PointRows n P run points.now → Marks n list.now marked → RowsOver P run list.now i (length list.now) table.old table.new) }
{
    let k = list.len();
    let bottoms = differences(n, run, points, marked, i, i);
    let inverted = inverses(MODULUS, run, bottoms);
    for (j, &x) in list.iter().enumerate() {
        let tops = differences(n, run, points, marked, i, x);
        quotients(MODULUS, run, tops, inverted, (i * k + j) * RUN, table);
    }
}

// The rows of the multipliers in each entry below m that is not skipped.
fn all_rows(
    n: usize,
    m: usize,
    run: usize,
    points: &[u32],
    list: &[usize],
    marked: [bool; FLAGS],
    skipped: [bool; FLAGS],
    table: &mut [u16],
)
    requires sizes { (n ≤ most_entries) × (m ≤ n) × (run ≤ most_places) × (length points.now ≡ points_size) × Low narrow.modulus points.now × (rising 0 n list.now ≡ true) × (n * length list.now * most_places ≤ table_size) }
    requires marks { Marks n list.now marked × ((i : ℕ) → i < m → get_or skipped i false ≡ false → get_or marked i false ≡ false) × (length table.old ≡ table_size) × Low narrow.modulus table.old }
    ensures { (P : ℕ → List ℕ) → Columns n P → PointRows n P run points.now → TableOver P run list.now (λ i. get_or skipped i false) m table.new }
{
    for i in 0..m {
        if skipped[i] {
            continue;
        }
        entry_rows(n, run, points, list, marked, i, table);
    }
}

// The multipliers at some a of the listed nodes in each node below m that is not listed.
pub fn multipliers_at(
    n: usize,
    m: usize,
    each: &[usize],
    run: usize,
    list: &[usize],
    marked: [bool; FLAGS],
    table: &mut [u16],
)
    requires { (n ≤ most_nodes) × (m ≤ n) × (run ≤ most_places) × (run ≤ length each.now) × (rising 0 n list.now ≡ true) × Marks n list.now marked × (length table.old ≡ table_size) × Low narrow.modulus table.old }
    ensures { TableOf n (element each.now) run list.now m table.new }
{
    let mut points = [0u32; POINTS];
    point_rows(n, each, run, &mut points);
    all_rows(n, m, run, &points, list, marked, marked, table);
}

// The multipliers at some a of the listed nodes in the entries of a first step that are not skipped: the n nodes, and behind them one with
// the opposite of node i's point.
pub fn entry_multipliers(
    n: usize,
    i: usize,
    each: &[usize],
    run: usize,
    list: &[usize],
    marked: [bool; FLAGS],
    skipped: [bool; FLAGS],
    table: &mut [u16],
)
    requires sizes { (n ≤ most_nodes) × (i < n) × (run ≤ most_places) × (run ≤ length each.now) × (rising 0 (n + 1) list.now ≡ true) × ((n + 1) * length list.now * most_places ≤ table_size) }
    requires marks { Marks (n + 1) list.now marked × ((e : ℕ) → e < n + 1 → get_or skipped e false ≡ false → get_or marked e false ≡ false) × (length table.old ≡ table_size) × Low narrow.modulus table.old }
    ensures { TableOver (entry_points n i (element each.now)) run list.now (λ e. get_or skipped e false) (n + 1) table.new }
{
    let mut points = [0u32; POINTS];
    point_rows(n, each, run, &mut points);
    point_row(i, true, each, run, n * RUN, &mut points);
    let m = n + 1;
    all_rows(m, m, run, &points, list, marked, skipped, table);
}

// The multipliers at a, a + 1, ..
pub fn multipliers(
    n: usize,
    m: usize,
    a: usize,
    run: usize,
    list: &[usize],
    marked: [bool; FLAGS],
    table: &mut [u16],
)
    requires { (n ≤ most_nodes) × (m ≤ n) × (run ≤ most_places) × (a + run ≤ 2 ^ most_nodes) × (rising 0 n list.now ≡ true) × Marks n list.now marked × (length table.old ≡ table_size) × Low narrow.modulus table.old }
    ensures { Table n a run list.now m table.new }
{
    let mut each = [0usize; RUN];
    for (t, x) in each[..run].iter_mut().enumerate() {
        *x = a + t;
    }
    multipliers_at(n, m, &each, run, list, marked, table);
}
