// Node files unpacked: the header read and judged, every symbol judged, and only then the symbols written.
#![tactic(auto)]

ghost use Rattle.std.specs.Prelude.{◌≡◌, ◌≤◌, length, drop};
ghost use Rattle.shape.specs.Shape.{symbol_values};
ghost use Rattle.shape.specs.Refusals.{answer_number};
ghost use Rattle.numbers.specs.Numbers.{most_groups, number_at, read_numbers, read_to};
ghost use Rattle.card.specs.Cards.{plain_count, hearing_lead, front_by, front_of, plain_of, read_symbols, symbols_number, symbols_read};
ghost use Rattle.card.specs.Promises.{Unpacks};

use card::{Front, HEARING_LEAD, Header, judge_header};
use numbers::{Number, read_number};
use shape::{MODULUS, Refusal, Shape};

// Five numbers from a place on: a header without a hearing number. "A number that is cut short ends the reading with 6."
fn read_plain(card: &[u8], start: usize) -> Option<Front>
    requires { start ≤ length card.now }
    ensures { result ≡ plain_of (length card.now) (read_numbers plain_count (drop start card.now)) }
{
    let Number { value: n, next } = read_number(card, start)?;
    let Number { value: k, next } = read_number(card, next)?;
    let Number {
        value: layers,
        next,
    } = read_number(card, next)?;
    let Number { value: node, next } = read_number(card, next)?;
    let Number { value: len, next } = read_number(card, next)?;
    let header = Header {
        shape: Shape { n, k, layers },
        node,
        len,
        hearing: 0,
    };
    Some(Front {
        header,
        least: 0,
        next,
    })
}

// A card whose first number is 1, from the place behind that: five numbers, and the hearing number, which is not 0 then (document 02 §9).
fn read_heard(card: &[u8], start: usize) -> Option<Front>
    requires { number_at most_groups card.now 0 ≡ read_to hearing_lead start }
    ensures { result ≡ front_of (length card.now) (front_by most_groups card.now) }
{
    let plain = read_plain(card, start)?;
    let Number {
        value: hearing,
        next,
    } = read_number(card, plain.next)?;
    let header = Header {
        hearing,
        ..plain.header
    };
    Some(Front {
        header,
        least: 1,
        next,
    })
}

// The numbers in front of the symbols: the first says how many there are.
fn read_header(card: &[u8]) -> Option<Front>
    ensures { result ≡ front_of (length card.now) (front_by most_groups card.now) }
{
    let first = read_number(card, 0)?;
    if first.value == HEARING_LEAD {
        return read_heard(card, first.next);
    }
    read_plain(card, 0)
}

// The first pass: "each symbol's form (6) then value (5) in turn, bytes left over (6)". It writes nothing.
fn scan_symbols(modulus: usize, card: &[u8], start: usize, count: usize) -> Result<(), Refusal>
    ensures { answer_number result ≡ symbols_number (read_symbols modulus count (drop start card.now)) }
{
    let mut at = start;
    for _ in 0..count {
        let Some(Number { value, next }) = read_number(card, at) else {
            return Err(Refusal::Malformed); // the form
        };
        if modulus <= value {
            return Err(Refusal::BadSymbol); // then the value
        }
        at = next;
    }
    if at < card.len() {
        return Err(Refusal::Malformed);
    }
    Ok(())
}

// The second pass, over a card that the first did not refuse: every number is read again, and none turns back.
fn read_symbols(card: &[u8], start: usize, symbols: &mut [u16])
    requires { symbols_number (read_symbols symbol_values (length symbols.old) (drop start card.now)) ≡ 0 }
    ensures { symbols.new ≡ symbols_read (read_symbols symbol_values (length symbols.old) (drop start card.now)) }
{
    let mut at = start;
    for symbol in symbols.iter_mut() {
        let Some(Number { value, next }) = read_number(card, at) else {
            return;
        };
        *symbol = value as u16;
        at = next;
    }
}

// The header and the symbols of a card, whatever bytes it has: nothing is written before everything is judged.
pub fn unpack(card: &[u8], symbols: &mut [u16]) -> Result<Header, Refusal>
    ensures { Unpacks card.now symbols.old symbols.new result }
{
    let front = read_header(card).ok_or(Refusal::Malformed)?;
    let count = symbols.len();
    judge_header(front.header, front.least, count)?;
    scan_symbols(MODULUS as usize, card, front.next, count)?;
    read_symbols(card, front.next, symbols);
    Ok(front.header)
}
