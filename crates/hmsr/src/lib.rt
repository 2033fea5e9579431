// The C interface: each function hands its numbers and buffers to the call of that name, and returns a number. It demands nothing of the numbers and buffers that it is handed.
#![tactic(auto)]

ghost use Rattle.shape.specs.Refusals.{answer_number};
ghost use Rattle.code.specs.Promises.{Writes, Restores, Opens};
ghost use Rattle.checking.specs.Promises.{Checks};
ghost use Rattle.stretches.specs.Promises.{OpensStretches};
ghost use Rattle.repair.specs.Promises.{HelperMessage, FirstStep, SecondStep, Repaired};
ghost use Rattle.arrival.specs.Promises.{Hears, Finishes};
ghost use Rattle.card.specs.Promises.{Packs};
ghost use Rattle.plan.specs.Promises.{Plans};
ghost use Rattle.choosing.specs.Promises.{Chooses};
ghost use Rattle.ordering.specs.Promises.{Orders};
ghost use Rattle.correcting.specs.Promises.{Corrects};
ghost use Rattle.returned.specs.Promises.{Returned, shape_of, header_from, check_returned, found_number, UnpackReturned};

use card::Header;
use checking::Fault;
use returned::{
    FIRST_FOUND, answer_number, equation_number, found_number, store_header, symbol_number,
    unpack_room,
};
use shape::Shape;

// The archive of a transcript.
#[unsafe(no_mangle)]
pub extern "C" fn hmsr_write(
    n: usize,
    k: usize,
    layers: usize,
    transcript: &[u8],
    nodes: &mut [u16],
) -> usize
    ensures { Returned answer_number (Writes (shape_of n k layers) transcript.now nodes.old nodes.new) result }
{
    let s = Shape { n, k, layers };
    answer_number(writing::write(s, transcript, nodes))
}

// The check of all n nodes: 0 sound, a refusal's number, or, behind FIRST_FOUND, the number of the first unmet equation, or of the first
// data symbol above 255 where all are met (document 02 §5).
#[unsafe(no_mangle)]
pub extern "C" fn hmsr_check(n: usize, k: usize, layers: usize, nodes: &[u16]) -> usize
    ensures { Returned (check_returned (shape_of n k layers)) (Checks (shape_of n k layers) nodes.now) result }
{
    let s = Shape { n, k, layers };
    match checking::check(s, nodes) {
        Ok(None) => 0,
        Ok(Some(Fault::Unmet { layer, a, t })) => FIRST_FOUND + equation_number(s, layer, a, t),
        Ok(Some(Fault::HighData { node, place })) => FIRST_FOUND + symbol_number(s, node, place),
        Err(cause) => usize::from(cause),
    }
}

// All n nodes from any k.
#[unsafe(no_mangle)]
pub extern "C" fn hmsr_restore(
    n: usize,
    k: usize,
    layers: usize,
    list: &[usize],
    symbols: &[u16],
    nodes: &mut [u16],
) -> usize
    ensures { Returned answer_number (Restores (shape_of n k layers) list.now symbols.now nodes.old nodes.new) result }
{
    let s = Shape { n, k, layers };
    answer_number(restoring::restore(s, list, symbols, nodes))
}

// The transcript of `len` bytes from any k nodes.
#[unsafe(no_mangle)]
pub extern "C" fn hmsr_open(
    n: usize,
    k: usize,
    layers: usize,
    list: &[usize],
    symbols: &[u16],
    len: usize,
    transcript: &mut [u8],
) -> usize
    ensures { Returned answer_number (Opens (shape_of n k layers) list.now symbols.now len transcript.old transcript.new) result }
{
    let s = Shape { n, k, layers };
    answer_number(opening::open(s, list, symbols, len, transcript))
}

// Stretches of the transcript of `len` bytes from any k nodes, and the columns that they touch (document 02 §2): a refusal's number, or the
// count of symbols read behind FIRST_FOUND.
#[unsafe(no_mangle)]
pub extern "C" fn hmsr_open_stretches(
    n: usize,
    k: usize,
    layers: usize,
    list: &[usize],
    symbols: &[u16],
    len: usize,
    stretches: &[usize],
    bytes: &mut [u8],
    columns: &mut [usize],
) -> usize
    ensures { Returned found_number (OpensStretches (shape_of n k layers) list.now symbols.now len stretches.now bytes.old bytes.new columns.old columns.new) result }
{
    let s = Shape { n, k, layers };
    found_number(stretches::open_stretches(s, list, symbols, len, stretches, bytes, columns))
}

// A helper's message to a new node.
#[unsafe(no_mangle)]
pub extern "C" fn hmsr_helper_message(
    n: usize,
    k: usize,
    layers: usize,
    dead: &[usize],
    helpers: &[usize],
    helper: usize,
    new: usize,
    symbols: &[u16],
    message: &mut [u16],
) -> usize
    ensures { Returned answer_number (HelperMessage (shape_of n k layers) dead.now helpers.now helper new symbols.now message.old message.new) result }
{
    let s = Shape { n, k, layers };
    answer_number(repair::helper_message(s, dead, helpers, helper, new, symbols, message))
}

// A new node's first step: from the helpers' messages its own pairs and its messages to the others.
#[unsafe(no_mangle)]
pub extern "C" fn hmsr_first_step(
    n: usize,
    k: usize,
    layers: usize,
    dead: &[usize],
    helpers: &[usize],
    new: usize,
    messages: &[u16],
    pairs: &mut [u16],
    sums: &mut [u16],
) -> usize
    ensures { Returned answer_number (FirstStep (shape_of n k layers) dead.now helpers.now new messages.now pairs.old sums.old pairs.new sums.new) result }
{
    let s = Shape { n, k, layers };
    answer_number(repair::first_step(s, dead, helpers, new, messages, pairs, sums))
}

// A helper's message added to the sums that a new node keeps, and the helper noted in the record of those heard (document 02 §8).
#[unsafe(no_mangle)]
pub extern "C" fn hmsr_hear(
    n: usize,
    k: usize,
    layers: usize,
    dead: &[usize],
    helpers: &[usize],
    new: usize,
    helper: usize,
    message: &[u16],
    sums: &mut [u16],
    heard: &mut [usize],
) -> usize
    ensures { Returned answer_number (Hears (shape_of n k layers) dead.now helpers.now new helper message.now sums.old sums.new heard.old heard.new) result }
{
    let s = Shape { n, k, layers };
    answer_number(hearing::hear(s, dead, helpers, new, helper, message, sums, heard))
}

// A new node's first step from the sums that it kept, once all helpers are heard: its own pairs and its messages to the other new nodes.
#[unsafe(no_mangle)]
pub extern "C" fn hmsr_finish(
    n: usize,
    k: usize,
    layers: usize,
    dead: &[usize],
    helpers: &[usize],
    new: usize,
    sums: &[u16],
    heard: &[usize],
    pairs: &mut [u16],
    exchanges: &mut [u16],
) -> usize
    ensures { Returned answer_number (Finishes (shape_of n k layers) dead.now helpers.now new sums.now heard.now pairs.old pairs.new exchanges.old exchanges.new) result }
{
    let s = Shape { n, k, layers };
    answer_number(finishing::finish(s, dead, helpers, new, sums, heard, pairs, exchanges))
}

// A new node's second step: from its own pairs and the messages received its N symbols.
#[unsafe(no_mangle)]
pub extern "C" fn hmsr_second_step(
    n: usize,
    k: usize,
    layers: usize,
    dead: &[usize],
    helpers: &[usize],
    new: usize,
    pairs: &[u16],
    received: &[u16],
    symbols: &mut [u16],
) -> usize
    ensures { Returned answer_number (SecondStep (shape_of n k layers) dead.now helpers.now new pairs.now received.now symbols.old symbols.new) result }
{
    let s = Shape { n, k, layers };
    answer_number(repair::second_step(s, dead, helpers, new, pairs, received, symbols))
}

// A whole repair on one archive, every message left on the wire.
#[unsafe(no_mangle)]
pub extern "C" fn hmsr_repair(
    n: usize,
    k: usize,
    layers: usize,
    dead: &[usize],
    helpers: &[usize],
    nodes: &mut [u16],
    wire: &mut [u16],
) -> usize
    ensures { Returned answer_number (Repaired (shape_of n k layers) dead.now helpers.now nodes.old nodes.new wire.old wire.new) result }
{
    let s = Shape { n, k, layers };
    answer_number(repair::repair(s, dead, helpers, nodes, wire))
}

// A node's card: a refusal's number, or the card's length behind FIRST_FOUND.
#[unsafe(no_mangle)]
pub extern "C" fn hmsr_pack(
    n: usize,
    k: usize,
    layers: usize,
    node: usize,
    len: usize,
    hearing: usize,
    symbols: &[u16],
    card: &mut [u8],
) -> usize
    ensures { Returned found_number (Packs (header_from n k layers node len hearing) symbols.now card.old card.new) result }
{
    let shape = Shape { n, k, layers };
    let header = Header {
        shape,
        node,
        len,
        hearing,
    };
    found_number(card::pack(header, symbols, card))
}

// The header and the symbols of a card.
#[unsafe(no_mangle)]
pub extern "C" fn hmsr_unpack(card: &[u8], symbols: &mut [u16], header: &mut [usize]) -> usize
    ensures { UnpackReturned card.now symbols.old symbols.new header.old header.new result }
{
    let room = unpack_room(header.len(), symbols.len());
    match unpacking::unpack(card, &mut symbols[..room]) {
        Ok(read) => {
            store_header(read, header);
            0
        }
        Err(cause) => usize::from(cause),
    }
}

// The plan's text for an input: a refusal's number, or the text's length behind FIRST_FOUND.
#[unsafe(no_mangle)]
pub extern "C" fn hmsr_plan(input: &[u8], text: &mut [u8]) -> usize
    ensures { Returned found_number (Plans input.now text.old text.new) result }
{
    found_number(plan::plan(input, text))
}

// The smallest number of layers that serves a list of losses (document 02 §6): a refusal's number, or L behind FIRST_FOUND.
#[unsafe(no_mangle)]
pub extern "C" fn hmsr_layers(n: usize, k: usize, losses: &[usize]) -> usize
    ensures { Returned found_number (Chooses n k losses.now) result }
{
    found_number(choosing::layers(n, k, losses))
}

// Whether the transfers of a repair may run in the order of a list of numbers, sender then receiver (document 02 §12): 0 where they may.
#[unsafe(no_mangle)]
pub extern "C" fn hmsr_may_run(
    n: usize,
    k: usize,
    layers: usize,
    dead: &[usize],
    helpers: &[usize],
    pairs: &[usize],
) -> usize
    ensures { Returned answer_number (Orders (shape_of n k layers) dead.now helpers.now pairs.now) result }
{
    let s = Shape { n, k, layers };
    answer_number(ordering::may_run(s, dead, helpers, pairs))
}

// One byte of a transcript of `length` bytes corrected by a change, in all n nodes (document 02 §10).
#[unsafe(no_mangle)]
pub extern "C" fn hmsr_correct(
    n: usize,
    k: usize,
    layers: usize,
    nodes: &mut [u16],
    length: usize,
    byte: usize,
    change: i64,
) -> usize
    ensures { Returned answer_number (Corrects (shape_of n k layers) length byte change nodes.old nodes.new) result }
{
    let s = Shape { n, k, layers };
    answer_number(correcting::correct(s, nodes, length, byte, change))
}
