// Writing: the n nodes of an archive from a transcript (demand 2).
#![tactic(auto)]

ghost use Rattle.std.specs.Prelude.{◌≡◌, ◌+◌, ◌≤◌, length};
ghost use Rattle.lists.specs.Lists.{element};
ghost use Rattle.rows.specs.Rows.{Stored};
ghost use Rattle.shape.specs.Refusals.{answer_number};
ghost use Rattle.code.specs.Code.{narrow};
ghost use Rattle.code.specs.Archive.{written};
ghost use Rattle.code.specs.Refusals.{write_refusal};
ghost use Rattle.code.specs.Promises.{Writes};
ghost use Rattle.writing.specs.Steps.{nothing, DataStored};

use code::node_numbers;
use filling::fill;
use shape::{Refusal, Shape, shape_bad, size};

// The bytes of a transcript, a symbol each: "Transcript byte number b stands on node b div N at place b mod N."
fn store_transcript(transcript: &[u8], nodes: &mut [u16])
    requires { length transcript.now ≤ length nodes.old }
    ensures { Stored 0 (length transcript.now) (element transcript.now) nodes.old nodes.new }
{
    for (b, symbol) in nodes[..transcript.len()].iter_mut().enumerate() {
        *symbol = u16::from(transcript[b]);
    }
}

// Zeros from a place of the nodes on.
fn clear(at: usize, count: usize, nodes: &mut [u16])
    requires { at + count ≤ length nodes.old }
    ensures { Stored at count nothing nodes.old nodes.new }
{
    nodes[at..at + count].fill(0);
}

// The data nodes, of `due` symbols in all: "The rest of nodes 0 to k−1 is 0."
fn store_data(due: usize, transcript: &[u8], nodes: &mut [u16])
    requires { (length transcript.now ≤ due) × (due ≤ length nodes.old) }
    ensures { DataStored due transcript.now nodes.old nodes.new }
{
    let bytes = transcript.len();
    store_transcript(transcript, nodes);
    clear(bytes, due - bytes, nodes);
}

// Causes 1 and 4 of writing into a buffer of `room` symbols, in this order.
fn judge_write(s: Shape, transcript: &[u8], room: usize) -> Result<(), Refusal>
    ensures { answer_number result ≡ write_refusal s transcript.now room }
{
    if shape_bad(s) {
        return Err(Refusal::BadShape);
    }
    let n = s.n;
    let k = s.k;
    let places = size(s);
    if (k * places < transcript.len()) | (room != n * places) {
        return Err(Refusal::WrongLength);
    }
    Ok(())
}

// All n nodes from the data nodes.
fn write_all(s: Shape, transcript: &[u8], nodes: &mut [u16])
    requires { write_refusal s transcript.now (length nodes.old) ≡ 0 }
    ensures { nodes.new ≡ written narrow s transcript.now }
{
    let k = s.k;
    let all = node_numbers();
    store_data(k * size(s), transcript, nodes);
    fill(s, &all[..k], nodes);
}

// The archive of a transcript.
pub fn write(s: Shape, transcript: &[u8], nodes: &mut [u16]) -> Result<(), Refusal>
    ensures { Writes s transcript.now nodes.old nodes.new result }
{
    judge_write(s, transcript, nodes.len())?;
    write_all(s, transcript, nodes);
    Ok(())
}
