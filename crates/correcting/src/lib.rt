// Correcting one byte of a transcript in all n nodes (document 02 §10).
#![tactic(auto)]

ghost use Rattle.std.specs.Prelude.{◌≡◌, true, false, ℕ, ◌+◌, ◌*◌, ◌%◌, ◌<◌, length, get_or, set};
ghost use Rattle.lists.specs.Lists.{element, tabulate};
ghost use Rattle.shape.specs.Shape.{most_nodes, size};
ghost use Rattle.shape.specs.Refusals.{answer_number, shape_bad, symbol_bad};
ghost use Rattle.code.specs.Code.{narrow};
ghost use Rattle.multipliers.specs.Multipliers.{unit};
ghost use Rattle.correcting.specs.Signed.{to_residue, is_change, change_bad};
ghost use Rattle.correcting.specs.Correcting.{corrected, correct_refusal};
ghost use Rattle.correcting.specs.Steps.{Correctable, Changes, Changed};
ghost use Rattle.correcting.specs.Promises.{Corrects};

use code::{node_numbers, points_at};
use completion::complete;
use field::add;
use shape::{MODULUS, MOST_NODES, Refusal, Shape, shape_bad, size, two_to};

// Cause 12. The range comes first: the sum of a symbol and a change within it fits.
fn change_bad(symbol: u16, change: i64) -> bool
    ensures { result ≡ change_bad symbol change }
{
    if !(-255..=255).contains(&change) {
        return true;
    }
    let sum = symbol as i64 + change;
    (sum < 0) | (255 < sum)
}

// A change from −255 to 255 as its residue: with the modulus added it is not below 0.
fn residue(change: i64) -> u32
    requires { is_change change ≡ true }
    ensures { result ≡ to_residue narrow.modulus change }
{
    (MODULUS as i64 + change) as u32 % MODULUS
}

// Cause 5: whether one of the n nodes, of `each` symbols, has a symbol above the largest at a place.
fn column_bad(n: usize, each: usize, place: usize, nodes: &[u16]) -> bool
    requires { (place < each) × (length nodes.now ≡ n * each) }
    ensures { result ≡ symbol_bad narrow.modulus (tabulate n (λ i. get_or nodes.now (i * each + place) 0)) }
{
    let mut bad = false;
    // A column, one symbol of each node: `skip(place).step_by(each)` would be no plainer.
    for i in 0..n {
        bad = bad | (MODULUS <= nodes[i * each + place] as u32);
    }
    bad
}

// Causes 1, 4, 9, 5 and 12, in this order.
fn judge_correct(
    s: Shape,
    nodes: &[u16],
    length: usize,
    byte: usize,
    change: i64,
) -> Result<(), Refusal>
    ensures { answer_number result ≡ correct_refusal narrow s nodes.now length byte change }
{
    if shape_bad(s) {
        return Err(Refusal::BadShape);
    }
    let n = s.n;
    let k = s.k;
    let each = size(s);
    if (nodes.len() != n * each) | (k * each < length) {
        return Err(Refusal::WrongLength);
    }
    if length <= byte {
        return Err(Refusal::PastEnd);
    }
    let high = column_bad(n, each, byte % each, nodes);
    let unfit = change_bad(nodes[byte], change);
    if high {
        return Err(Refusal::BadSymbol);
    }
    if unfit {
        return Err(Refusal::BadChange);
    }
    Ok(())
}

// One number at an entry, and 0 at the others.
fn alone(at: usize, x: u32) -> [u32; MOST_NODES]
    requires { at < most_nodes }
    ensures { (length result ≡ most_nodes) × ((j : ℕ) → j < most_nodes → element result j ≡ x * unit at j) }
{
    let mut out = [0u32; MOST_NODES];
    out[at] = x;
    out
}

// What the symbol of each node changes by at a place where data node `node` changes by `by`: the one column that meets the equations.
fn changes(s: Shape, node: usize, place: usize, by: u32) -> [u32; MOST_NODES]
    requires { (shape_bad s ≡ false) × (node < s.k) × (by < narrow.modulus) }
    ensures { Changes s node place by result }
{
    let n = s.n;
    let k = s.k;
    let points = points_at(n, place % two_to(n));
    let all = node_numbers();
    let data = alone(node, by);
    let mut out = [0u32; MOST_NODES];
    complete(MODULUS, &points[..n], &all[..k], &data[..k], &mut out[..n]);
    out
}

// Adds to one symbol.
fn add_to(at: usize, by: u32, nodes: &mut [u16])
    requires { at < length nodes.old }
    ensures { nodes.new ≡ set nodes.old at ((get_or nodes.old at 0 + by) % narrow.modulus) }
{
    nodes[at] = add(MODULUS, nodes[at] as u32, by) as u16;
}

// "Each check node, k to n−1, changes only at the byte's place".
fn change_checks(s: Shape, place: usize, by: [u32; MOST_NODES], nodes: &mut [u16])
    requires { (shape_bad s ≡ false) × (place < size s) × (length nodes.old ≡ s.n * size s) }
    ensures { Changed s.k s.n (size s) place by nodes.old nodes.new }
{
    let each = size(s);
    for i in s.k..s.n {
        add_to(i * each + place, by[i], nodes);
    }
}

// The byte's own symbol, and one of each check node.
fn correct_all(s: Shape, byte: usize, change: i64, nodes: &mut [u16])
    requires { Correctable narrow s nodes.old byte change }
    ensures { nodes.new ≡ corrected narrow s nodes.old byte change }
{
    let each = size(s);
    let by = changes(s, byte / each, byte % each, residue(change));
    add_to(byte, by[byte / each], nodes);
    change_checks(s, byte % each, by, nodes);
}

// Corrects byte number `byte` of a transcript of `length` bytes by a change.
pub fn correct(
    s: Shape,
    nodes: &mut [u16],
    length: usize,
    byte: usize,
    change: i64,
) -> Result<(), Refusal>
    ensures { Corrects s length byte change nodes.old nodes.new result }
{
    judge_correct(s, nodes, length, byte, change)?;
    correct_all(s, byte, change, nodes);
    Ok(())
}
