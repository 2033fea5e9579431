// What the calls of a repair turn back for.
#![tactic(auto)]

ghost use Rattle.std.specs.Prelude.{◌≡◌, true, false, not, ◌*◌, length};
ghost use Rattle.shape.specs.Shape.{size};
ghost use Rattle.shape.specs.Refusals.{answer_number, shape_bad};
ghost use Rattle.judging.specs.Refusals.{lists_refusal, message_refusal, first_step_refusal, second_step_refusal, node_good, whole_refusal};
ghost use Rattle.code.specs.Code.{narrow};
ghost use Rattle.lists.specs.Lists.{all, rising};

use shape::{
    MODULUS, Refusal, Shape, batch, layers_bad, listed, repair_bad, shape_bad, size, symbol_bad,
};

// Causes 1 to 3, which all calls of a repair share. Nothing is worked out from the shape before it is judged.
pub fn judge_lists(
    s: Shape,
    dead: &[usize],
    helpers: &[usize],
    unnamed: bool,
) -> Result<(), Refusal>
    ensures { answer_number result ≡ lists_refusal s dead.now helpers.now unnamed 0 }
{
    if shape_bad(s) {
        return Err(Refusal::BadShape);
    }
    if repair_bad(s, dead, helpers) | unnamed {
        return Err(Refusal::BadNodes);
    }
    let layers = s.layers;
    if layers_bad(layers, batch(dead.len())) {
        return Err(Refusal::PartBatch);
    }
    Ok(())
}

// What helper_message turns back for.
pub fn judge_message(
    s: Shape,
    dead: &[usize],
    helpers: &[usize],
    helper: usize,
    new: usize,
    symbols: &[u16],
    room: usize,
) -> Result<(), Refusal>
    ensures { answer_number result ≡ message_refusal narrow s dead.now helpers.now helper new symbols.now room }
{
    let unnamed = !listed(helpers, helper) | !listed(dead, new);
    judge_lists(s, dead, helpers, unnamed)?;
    let full = size(s);
    if (symbols.len() != full) | (room != full / (dead.len() + 1)) {
        return Err(Refusal::WrongLength);
    }
    if symbol_bad(MODULUS, symbols) {
        return Err(Refusal::BadSymbol);
    }
    Ok(())
}

// What second_step turns back for.
pub fn judge_second(
    s: Shape,
    dead: &[usize],
    helpers: &[usize],
    new: usize,
    pairs: &[u16],
    received: &[u16],
    room: usize,
) -> Result<(), Refusal>
    ensures { answer_number result ≡ second_step_refusal narrow s dead.now helpers.now new pairs.now received.now room }
{
    judge_lists(s, dead, helpers, !listed(dead, new))?;
    let full = size(s);
    let h = dead.len();
    let share = full / (h + 1);
    if (pairs.len() != 2 * share) | (received.len() != (h - 1) * share) | (room != full) {
        return Err(Refusal::WrongLength);
    }
    if symbol_bad(MODULUS, pairs) | symbol_bad(MODULUS, received) {
        return Err(Refusal::BadSymbol);
    }
    Ok(())
}

// What first_step turns back for.
pub fn judge_first(
    s: Shape,
    dead: &[usize],
    helpers: &[usize],
    new: usize,
    messages: &[u16],
    pairs: usize,
    sums: usize,
) -> Result<(), Refusal>
    ensures { answer_number result ≡ first_step_refusal narrow s dead.now helpers.now new messages.now pairs sums }
{
    judge_lists(s, dead, helpers, !listed(dead, new))?;
    let k = s.k;
    let h = dead.len();
    let share = size(s) / (h + 1);
    if (messages.len() != (k + 1) * share) | (pairs != 2 * share) | (sums != (h - 1) * share) {
        return Err(Refusal::WrongLength);
    }
    if symbol_bad(MODULUS, messages) {
        return Err(Refusal::BadSymbol);
    }
    Ok(())
}

// Cause 5 of a whole repair: "the dead and the nodes not listed are not looked at".
fn helpers_bad(s: Shape, helpers: &[usize], nodes: &[u16]) -> bool
    requires { (shape_bad s ≡ false) × (rising 0 s.n helpers.now ≡ true) × (length nodes.now ≡ s.n * size s) }
    ensures { result ≡ not (all (node_good narrow s nodes.now) helpers.now) }
{
    let full = size(s);
    for &helper in helpers {
        let at = helper * full;
        let end = at + full;
        if symbol_bad(MODULUS, &nodes[at..end]) {
            return true;
        }
    }
    false
}

// What repair turns back for.
pub fn judge_whole(
    s: Shape,
    dead: &[usize],
    helpers: &[usize],
    nodes: &[u16],
    wire: usize,
) -> Result<(), Refusal>
    ensures { answer_number result ≡ whole_refusal narrow s dead.now helpers.now nodes.now wire }
{
    judge_lists(s, dead, helpers, false)?;
    let n = s.n;
    let k = s.k;
    let full = size(s);
    let h = dead.len();
    if (nodes.len() != n * full) | (wire != h * (k + h) * (full / (h + 1))) {
        return Err(Refusal::WrongLength);
    }
    if helpers_bad(s, helpers, nodes) {
        return Err(Refusal::BadSymbol);
    }
    Ok(())
}
