// The check of an archive (demand 2; document 02 §5).
#![tactic(auto)]

ghost use Rattle.std.specs.Prelude.{◌≡◌, false};
ghost use Rattle.shape.specs.Shape.{byte_values};
ghost use Rattle.shape.specs.Refusals.{shape_bad, answer_number};
ghost use Rattle.code.specs.Code.{narrow};
ghost use Rattle.code.specs.Archive.{first_unmet, first_high};
ghost use Rattle.code.specs.Refusals.{check_refusal};
ghost use Rattle.checking.specs.Promises.{checked_by, data_by, check_answer, Checks};
ghost use Rattle.checking.specs.Steps.{MetTo};

use code::{gathered, node_numbers, points_at};
use column::parity;
use comparing::listed_met;
use patterns::pays;
use shape::{BYTE_VALUES, MODULUS, Refusal, Shape, shape_bad, size, symbol_bad, two_to};
use tables::marks;

// What the check finds: "the first unmet equation by layer, then a, then t", or, where all equations are met, "the first such symbol by node
// then place", one of nodes 0 to k-1 that is above 255 (document 02 §5).
#[derive(Clone, Copy)]
pub enum Fault {
    Unmet { layer: usize, a: usize, t: usize },
    HighData { node: usize, place: usize },
}

// Causes 1, 4 and 5 of a check, in this order.
fn judge_check(s: Shape, nodes: &[u16]) -> Result<(), Refusal>
    ensures { answer_number result ≡ check_refusal narrow s nodes.now }
{
    if shape_bad(s) {
        return Err(Refusal::BadShape);
    }
    let n = s.n;
    if nodes.len() != n * size(s) {
        return Err(Refusal::WrongLength);
    }
    if symbol_bad(MODULUS, nodes) {
        return Err(Refusal::BadSymbol);
    }
    Ok(())
}

// The first equation whose sum is not 0, where all those at the a below `from` are met. The points and the column of a place serve all
// its equations.
fn first_unmet(s: Shape, nodes: &[u16], from: usize) -> Option<Fault>
    requires { (check_refusal narrow s nodes.now ≡ 0) × MetTo s nodes.now from }
    ensures { result ≡ checked_by s (first_unmet narrow s nodes.now) }
{
    let n = s.n;
    let k = s.k;
    let layers = s.layers;
    let two = two_to(n);
    let r = n - k;
    for layer in 0..layers {
        for a in from..two {
            let points = points_at(n, a);
            let column = gathered(nodes, n, layers * two, layer * two + a);
            let sums = parity(MODULUS, r, &points[..n], &column[..n]);
            for t in 0..r {
                if sums[t] != 0 {
                    return Some(Fault::Unmet { layer, a, t });
                }
            }
        }
    }
    None
}

// How many a have all their equations met, in every layer: nodes k to n-1 hold there what would be filled in from nodes 0 to k-1.
fn rows_met(s: Shape, nodes: &[u16]) -> usize
    requires { check_refusal narrow s nodes.now ≡ 0 }
    ensures { MetTo s nodes.now result }
{
    let k = s.k;
    let all = node_numbers();
    listed_met(s, &all[..k], nodes)
}

// Whether multipliers pay: with places enough, picked from few or for two layers or more. Whatever it says, the check finds the same.
fn rows_pay(s: Shape, list: &[usize]) -> bool
    requires { shape_bad s ≡ false }
{
    let n = s.n;
    let layers = s.layers;
    if n + layers < 6 {
        return false;
    }
    if 1 < layers {
        return true;
    }
    pays(n, marks(n, list))
}

// The first equation whose sum is not 0, looked for by rows first where that pays.
fn search(s: Shape, nodes: &[u16]) -> Option<Fault>
    requires { check_refusal narrow s nodes.now ≡ 0 }
    ensures { result ≡ checked_by s (first_unmet narrow s nodes.now) }
{
    let k = s.k;
    let all = node_numbers();
    if rows_pay(s, &all[..k]) {
        return first_unmet(s, nodes, rows_met(s, nodes));
    }
    first_unmet(s, nodes, 0)
}

// The first data symbol above 255. All are looked at together before they are one by one: an archive that was written has none.
fn first_high(s: Shape, nodes: &[u16]) -> Option<Fault>
    requires { check_refusal narrow s nodes.now ≡ 0 }
    ensures { result ≡ data_by s (first_high byte_values s nodes.now) }
{
    let k = s.k;
    let each = size(s);
    let count = k * each;
    let data = &nodes[..count];
    if !symbol_bad(BYTE_VALUES, data) {
        return None;
    }
    for (e, &symbol) in data.iter().enumerate() {
        if BYTE_VALUES <= symbol as u32 {
            return Some(Fault::HighData {
                node: e / each,
                place: e % each,
            });
        }
    }
    None
}

// "The equations are judged first", all of them: the data symbols say something only where these are met.
fn look(s: Shape, nodes: &[u16]) -> Option<Fault>
    requires { check_refusal narrow s nodes.now ≡ 0 }
    ensures { result ≡ check_answer s nodes.now }
{
    let equations = search(s, nodes);
    let symbols = first_high(s, nodes);
    equations.or(symbols)
}

// The check of all n nodes: the first fault, or none where they are sound.
pub fn check(s: Shape, nodes: &[u16]) -> Result<Option<Fault>, Refusal>
    ensures { Checks s nodes.now result }
{
    judge_check(s, nodes)?;
    Ok(look(s, nodes))
}
