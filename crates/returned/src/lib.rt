// The numbers that the C interface returns, the room that its unpacking lends, and the header's numbers in their buffer.
#![tactic(auto)]

ghost use Rattle.std.specs.Prelude.{◌≡◌, false, ℕ, ◌-◌, ◌^◌, ◌<◌, length, Ok};
ghost use Rattle.shape.specs.Shape.{size};
ghost use Rattle.shape.specs.Refusals.{answer_number, shape_bad};
ghost use Rattle.checking.specs.Promises.{equation_number};
ghost use Rattle.card.specs.Cards.{field_count, header_fields};
ghost use Rattle.returned.specs.Promises.{behind_equations, found_number, unpack_room};

use card::Header;
use shape::{Refusal, Shape, size, two_to};

// The numbers of a card's header: n, k, layers, node, length, hearing number.
const HEADER_COUNT: usize = 6;

// What check, pack, plan, layers and the stretches find is returned behind the numbers below this one, which are refusals'.
pub const FIRST_FOUND: usize = 256;

// What a call that does its work or turns back returns to C.
pub fn answer_number(answer: Result<(), Refusal>) -> usize
    ensures { result ≡ answer_number answer }
{
    match answer {
        Ok(()) => 0,
        Err(cause) => usize::from(cause),
    }
}

// What a call that finds a number or turns back returns to C.
pub fn found_number(answer: Result<usize, Refusal>) -> usize
    requires { (found : ℕ) → answer ≡ Ok found → found < 2 ^ 32 }
    ensures { result ≡ found_number answer }
{
    match answer {
        Ok(found) => FIRST_FOUND + found,
        Err(refusal) => usize::from(refusal),
    }
}

// The number of equation t at (layer, a), by layer, then a, then t.
pub fn equation_number(s: Shape, layer: usize, a: usize, t: usize) -> usize
    requires { (shape_bad s ≡ false) × (layer < s.layers) × (a < 2 ^ s.n) × (t < s.n - s.k) }
    ensures { (result ≡ equation_number s layer a t) × (result < 2 ^ 32) }
{
    let n = s.n;
    let k = s.k;
    (layer * two_to(n) + a) * (n - k) + t
}

// The number of a node's symbol at a place, by node, then place, behind the numbers of all equations.
pub fn symbol_number(s: Shape, node: usize, place: usize) -> usize
    requires { (shape_bad s ≡ false) × (node < s.k) × (place < size s) }
    ensures { (result ≡ behind_equations s node place) × (result < 2 ^ 32) }
{
    let n = s.n;
    let k = s.k;
    let each = size(s);
    (n - k) * each + (node * each + place)
}

// The symbols that unpacking has room for: none where the header's buffer is of another length. Every card has symbols, so 4 then comes in its place among the causes.
pub fn unpack_room(header: usize, symbols: usize) -> usize
    ensures { result ≡ unpack_room header symbols }
{
    if header == HEADER_COUNT { symbols } else { 0 }
}

// A header's numbers, in the order in which a card has them; the hearing number is 0 where there is none.
pub fn store_header(read: Header, header: &mut [usize])
    requires { length header.old ≡ field_count }
    ensures { header.new ≡ header_fields read }
{
    let s = read.shape;
    header[0] = s.n;
    header[1] = s.k;
    header[2] = s.layers;
    header[3] = read.node;
    header[4] = read.len;
    header[5] = read.hearing;
}
