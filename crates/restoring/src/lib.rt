// All n nodes of an archive from any k of them.
#![tactic(auto)]

ghost use Rattle.std.specs.Prelude.{◌≡◌, true, ◌*◌, length};
ghost use Rattle.lists.specs.Lists.{rising};
ghost use Rattle.shape.specs.Refusals.{answer_number};
ghost use Rattle.code.specs.Code.{narrow};
ghost use Rattle.code.specs.Archive.{restored};
ghost use Rattle.code.specs.Refusals.{restore_refusal};
ghost use Rattle.code.specs.Promises.{Restores};
ghost use Rattle.restoring.specs.Steps.{ListedPlaced};

use filling::fill;
use rows::copy;
use shape::{MODULUS, Refusal, Shape, nodes_bad, shape_bad, size, symbol_bad};

// Causes 1, 2, 4 and 5 of restoring into a buffer of `room` symbols, in this order.
fn judge_restore(s: Shape, list: &[usize], symbols: &[u16], room: usize) -> Result<(), Refusal>
    ensures { answer_number result ≡ restore_refusal narrow s list.now symbols.now room }
{
    if shape_bad(s) {
        return Err(Refusal::BadShape);
    }
    let n = s.n;
    let k = s.k;
    let unlisted = nodes_bad(n, k, list);
    let places = size(s);
    let misfit = (symbols.len() != k * places) | (room != n * places);
    if unlisted {
        return Err(Refusal::BadNodes);
    }
    if misfit {
        return Err(Refusal::WrongLength);
    }
    if symbol_bad(MODULUS, symbols) {
        return Err(Refusal::BadSymbol);
    }
    Ok(())
}

// The symbols of the listed nodes, put where these nodes stand among all n.
fn place_nodes(n: usize, each: usize, list: &[usize], symbols: &[u16], nodes: &mut [u16])
    requires { (rising 0 n list.now ≡ true) × (length symbols.now ≡ length list.now * each) × (length nodes.old ≡ n * each) }
    ensures { ListedPlaced each list.now symbols.now (length list.now) nodes.old nodes.new }
{
    for (j, &node) in list.iter().enumerate() {
        copy(each, symbols, j * each, node * each, nodes);
    }
}

// All n nodes from the listed ones.
fn restore_all(s: Shape, list: &[usize], symbols: &[u16], nodes: &mut [u16])
    requires { restore_refusal narrow s list.now symbols.now (length nodes.old) ≡ 0 }
    ensures { nodes.new ≡ restored narrow s list.now symbols.now }
{
    place_nodes(s.n, size(s), list, symbols, nodes);
    fill(s, list, nodes);
}

// All n nodes from any k of them.
pub fn restore(s: Shape, list: &[usize], symbols: &[u16], nodes: &mut [u16]) -> Result<(), Refusal>
    ensures { Restores s list.now symbols.now nodes.old nodes.new result }
{
    judge_restore(s, list, symbols, nodes.len())?;
    restore_all(s, list, symbols, nodes);
    Ok(())
}
