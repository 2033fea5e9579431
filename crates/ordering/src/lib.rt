// Whether the transfers of a repair may run in an order (document 02 §12): one pass over the list, with a table of what has been sent.
#![tactic(auto)]

ghost use Rattle.std.specs.Prelude.{◌≡◌, ◌<◌};
ghost use Rattle.lists.specs.Lists.{all};
ghost use Rattle.shape.specs.Shape.{most_nodes};
ghost use Rattle.transfers.specs.Promises.{Plannable};
ghost use Rattle.ordering.specs.Ordering.{between, pairs, may_run};
ghost use Rattle.ordering.specs.Following.{in_plan, by_table, sent_to, may_follow, Nodes};
ghost use Rattle.ordering.specs.Promises.{Orders};

use judging::judge_lists;
use shape::{MOST_NODES, Refusal, Shape, listed};

// Whether node i has sent to node j, for every two nodes, at i × MOST_NODES + j.
const TABLE: usize = MOST_NODES * MOST_NODES;

// Whether a transfer is in the plan. "Pairs are free numbers; one naming no drive is merely not in the plan."
fn planned(dead: &[usize], helpers: &[usize], sender: usize, receiver: usize) -> bool
    ensures { result ≡ in_plan dead.now helpers.now (between sender receiver) }
{
    listed(dead, receiver)
        & (listed(helpers, sender) | (listed(dead, sender) & (sender != receiver)))
}

// Whether every helper has sent to a node.
fn all_sent(helpers: &[usize], sent: &[bool; TABLE], node: usize) -> bool
    requires { Nodes helpers.now × (node < most_nodes) }
    ensures { result ≡ all (sent_to (by_table sent.now) node) helpers.now }
{
    for &helper in helpers {
        if !sent[helper * MOST_NODES + node] {
            return false;
        }
    }
    true
}

// Whether a transfer may follow those that have run: "each exchange comes after all k+1 messages to its sender".
fn may_follow(
    dead: &[usize],
    helpers: &[usize],
    sent: &[bool; TABLE],
    sender: usize,
    receiver: usize,
) -> bool
    requires { Nodes dead.now × Nodes helpers.now }
    ensures { result ≡ may_follow dead.now helpers.now (by_table sent.now) (between sender receiver) }
{
    if !planned(dead, helpers, sender, receiver) {
        return false;
    }
    if sent[sender * MOST_NODES + receiver] {
        return false;
    }
    if listed(dead, sender) {
        return all_sent(helpers, sent, sender);
    }
    true
}

// Whether the pairs of a list may run in its order. The plan has h(k+h) transfers, and a list of another length may not; in one as long as
// the plan, where each transfer is in the plan and none stands twice, every transfer of the plan stands.
fn runs(s: Shape, dead: &[usize], helpers: &[usize], numbers: &[usize]) -> bool
    requires { Plannable s dead.now helpers.now }
    ensures { result ≡ may_run dead.now helpers.now (pairs numbers.now) }
{
    let k = s.k;
    let h = dead.len();
    let count = h * (k + h);
    if numbers.len() / 2 != count {
        return false;
    }
    let mut sent = [false; TABLE];
    for x in 0..count {
        let sender = numbers[x * 2];
        let receiver = numbers[x * 2 + 1];
        if !may_follow(dead, helpers, &sent, sender, receiver) {
            return false;
        }
        sent[sender * MOST_NODES + receiver] = true;
    }
    true
}

// Whether the transfers may run in the order of the list, sender then receiver; judged 1, 2, 3, 4, 13.
pub fn may_run(
    s: Shape,
    dead: &[usize],
    helpers: &[usize],
    numbers: &[usize],
) -> Result<(), Refusal>
    ensures { Orders s dead.now helpers.now numbers.now result }
{
    judge_lists(s, dead, helpers, false)?;
    let odd = numbers.len() % 2 != 0;
    let yes = runs(s, dead, helpers, numbers);
    if odd {
        return Err(Refusal::WrongLength);
    }
    if !yes {
        return Err(Refusal::BadOrder);
    }
    Ok(())
}
