// What hearing a helper and finishing turn back for (document 02 §8): the lists, the record of those heard, the kept sums.
#![tactic(auto)]

ghost use Rattle.std.specs.Prelude.{◌≡◌, not, ◌&&◌, ℕ, ◌≤◌, length};
ghost use Rattle.lists.specs.Lists.{all, member};
ghost use Rattle.shape.specs.Shape.{most_nodes};
ghost use Rattle.shape.specs.Refusals.{answer_number};
ghost use Rattle.code.specs.Code.{narrow};
ghost use Rattle.arrival.specs.Record.{heard_count, heard_nodes, distinct, among, record_bad, caller_bad, hear_refusal, finish_refusal};

use judging::judge_lists;
use shape::{MODULUS, MOST_NODES, Refusal, Shape, listed, size, symbol_bad};

// How many a record counts.
fn heard_count(heard: &[usize]) -> usize
    ensures { result ≡ heard_count heard.now }
{
    match heard {
        [] => 0,
        [count, ..] => *count,
    }
}

// The nodes that a record counts, as far as it goes.
fn heard_nodes(heard: &[usize]) -> &[usize]
    ensures { result.now ≡ heard_nodes heard.now }
{
    match heard {
        [] => heard,
        [count, nodes @ ..] => {
            let last = nodes.len().min(*count);
            &nodes[..last]
        }
    }
}

// Whether a node is among those that a record counts.
fn heard_before(heard: &[usize], node: usize) -> bool
    ensures { result ≡ member node (heard_nodes heard.now) }
{
    listed(heard_nodes(heard), node)
}

// Whether a list has a node that is no helper, or a node twice.
fn nodes_wrong(helpers: &[usize], nodes: &[usize]) -> bool
    ensures { result ≡ not (distinct nodes.now && all (among helpers.now) nodes.now) }
{
    for (j, &node) in nodes.iter().enumerate() {
        let next = j + 1;
        if listed(&nodes[next..], node) | !listed(helpers, node) {
            return true;
        }
    }
    false
}

// Whether a record is not as it should be. Where there are more helpers than nodes, the call is turned back whatever the record says, and
// nothing is looked for in a long list.
fn record_bad(helpers: &[usize], heard: &[usize]) -> bool
    ensures { (most : ℕ) → length helpers.now ≡ most → most ≤ most_nodes → result ≡ record_bad most helpers.now heard.now }
{
    let most = helpers.len();
    if MOST_NODES < most {
        return true;
    }
    if most < heard_count(heard) {
        return true;
    }
    nodes_wrong(helpers, heard_nodes(heard))
}

// Whether a helper may not be heard: it is not in the list, was heard before, or the record is not as it should be.
fn caller_bad(helpers: &[usize], heard: &[usize], helper: usize) -> bool
    ensures { (most : ℕ) → length helpers.now ≡ most → most ≤ most_nodes → result ≡ caller_bad most helpers.now heard.now helper }
{
    if record_bad(helpers, heard) {
        return true;
    }
    !listed(helpers, helper) | heard_before(heard, helper)
}

// What hear turns back for.
pub fn judge_hear(
    s: Shape,
    dead: &[usize],
    helpers: &[usize],
    new: usize,
    helper: usize,
    message: &[u16],
    sums: &[u16],
    heard: &[usize],
) -> Result<(), Refusal>
    ensures { answer_number result ≡ hear_refusal narrow s dead.now helpers.now new helper message.now sums.now heard.now }
{
    let unnamed = !listed(dead, new) | caller_bad(helpers, heard, helper);
    judge_lists(s, dead, helpers, unnamed)?;
    let n = s.n;
    let k = s.k;
    let share = size(s) / (dead.len() + 1);
    if (message.len() != share) | (sums.len() != (n - k) * share) | (heard.len() != k + 2) {
        return Err(Refusal::WrongLength);
    }
    if symbol_bad(MODULUS, message) | symbol_bad(MODULUS, sums) {
        return Err(Refusal::BadSymbol);
    }
    Ok(())
}

// What finish turns back for.
pub fn judge_finish(
    s: Shape,
    dead: &[usize],
    helpers: &[usize],
    new: usize,
    sums: &[u16],
    heard: &[usize],
    pairs: usize,
    out: usize,
) -> Result<(), Refusal>
    ensures { answer_number result ≡ finish_refusal narrow s dead.now helpers.now new sums.now heard.now pairs out }
{
    let unnamed = !listed(dead, new) | record_bad(helpers, heard);
    judge_lists(s, dead, helpers, unnamed)?;
    let n = s.n;
    let k = s.k;
    let h = dead.len();
    let share = size(s) / (h + 1);
    let kept = (sums.len() != (n - k) * share) | (heard.len() != k + 2);
    let wrong = kept | (pairs != 2 * share) | (out != (h - 1) * share);
    if wrong | (heard_count(heard) != k + 1) {
        return Err(Refusal::WrongLength);
    }
    if symbol_bad(MODULUS, sums) {
        return Err(Refusal::BadSymbol);
    }
    Ok(())
}
