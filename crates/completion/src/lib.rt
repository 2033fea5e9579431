// The column that meets the parity equations, from the values at some of its entries.
#![tactic(auto)]

ghost use Rattle.std.specs.Prelude.{◌≡◌, ℕ, ◌-◌, ◌<◌, ◌≤◌, true, length, take};
ghost use Rattle.lists.specs.Lists.{element, others, rising};
ghost use Rattle.field.specs.Residues.{minus};
ghost use Rattle.column.specs.Column.{parity};
ghost use Rattle.column.specs.Solving.{most_entries, cell, power_of, Scattered, Known, Missing, Completes};

use column::{ENTRIES, parity, solve};
use field::{multiply, subtract};

// The entries below m that a rising list lacks, rising.
pub fn others(m: usize, list: &[usize]) -> [usize; ENTRIES]
    requires { (m ≤ most_entries) × (rising 0 m list.now ≡ true) }
    ensures { take (m - length list.now) result ≡ others m list.now }
{
    let mut out = [0usize; ENTRIES];
    let mut j = 0;
    let mut at = 0;
    for i in 0..m {
        if j < list.len() {
            if list[j] == i {
                j += 1;
                continue;
            }
        }
        out[at] = i;
        at += 1;
    }
    out
}

// The points of the listed entries.
fn gathered(points: &[u32], list: &[usize]) -> [u32; ENTRIES]
    requires { (length points.now ≤ most_entries) × (rising 0 (length points.now) list.now ≡ true) }
    ensures { (length result ≡ most_entries) × ((j : ℕ) → j < length list.now → element result j ≡ element points.now (element list.now j)) }
{
    let mut out = [0u32; ENTRIES];
    for (j, &entry) in list.iter().enumerate() {
        out[j] = points[entry];
    }
    out
}

// The first r powers of x.
pub fn powers(q: u32, r: usize, x: u32) -> [u32; ENTRIES]
    requires { (1 < q) × (r ≤ most_entries) }
    ensures { (t : ℕ) → t < r → element result t ≡ power_of q x t }
{
    let mut out = [0u32; ENTRIES];
    let mut p = 1;
    for power in out[..r].iter_mut() {
        *power = p;
        p = multiply(q, p, x);
    }
    out
}

// The first r powers of each of the first r points.
pub fn vandermonde(q: u32, r: usize, points: [u32; ENTRIES]) -> [[u32; ENTRIES]; ENTRIES]
    requires { (1 < q) × (r ≤ most_entries) }
    ensures { (j t : ℕ) → j < r → t < r → cell result j t ≡ power_of q (element points j) t }
{
    let mut out = [[0u32; ENTRIES]; ENTRIES];
    for (j, row) in out[..r].iter_mut().enumerate() {
        *row = powers(q, r, points[j]);
    }
    out
}

// The right side of the equations of the unknowns: what the known values lack to 0.
fn right_side(q: u32, r: usize, points: &[u32], values: &[u32]) -> [u32; ENTRIES]
    requires { (1 < q) × (r ≤ most_entries) × (length points.now ≤ most_entries) × (length values.now ≡ length points.now) }
    ensures { (t : ℕ) → t < r → element result t ≡ minus q 0 (parity q points.now values.now t) }
{
    let mut sums = parity(q, r, points, values);
    for sum in sums[..r].iter_mut() {
        *sum = subtract(q, 0, *sum);
    }
    sums
}

// Each value stored at its listed entry.
pub fn scatter(list: &[usize], values: &[u32], column: &mut [u32])
    requires { (length values.now ≡ length list.now) × (rising 0 (length column.old) list.now ≡ true) }
    ensures { Scattered list.now values.now column.old column.new }
{
    for (&entry, &value) in list.iter().zip(values.iter()) {
        column[entry] = value;
    }
}

// The values at the unknown entries, which are all but the listed.
fn missing(
    q: u32,
    points: &[u32],
    list: &[usize],
    unknown: &[usize],
    values: &[u32],
) -> [u32; ENTRIES]
    requires { Known q points.now list.now values.now × (unknown.now ≡ others (length points.now) list.now) }
    ensures { Missing q points.now list.now values.now result }
{
    let r = unknown.len();
    let known = gathered(points, list);
    let right = right_side(q, r, &known[..list.len()], values);
    solve(q, r, vandermonde(q, r, gathered(points, unknown)), right)
}

// The column that has these values at the listed entries and meets as many parity equations as there are other entries.
pub fn complete(q: u32, points: &[u32], list: &[usize], values: &[u32], column: &mut [u32])
    requires { Known q points.now list.now values.now × (length column.old ≡ length points.now) }
    ensures { Completes q points.now list.now values.now column.new }
{
    let r = points.len() - list.len();
    let unknown = others(points.len(), list);
    let found = missing(q, points, list, &unknown[..r], values);
    scatter(list, values, column);
    scatter(&unknown[..r], &found[..r], column);
}
