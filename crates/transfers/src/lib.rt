// The transfers of a repair, and their text: what the plan program prints for lists that it accepts, and the line of a refusal.
#![tactic(auto)]

ghost use Rattle.std.specs.Prelude.{◌≡◌, ◌+◌, ◌≤◌, ◌<◌, length, get_or};
ghost use mathlib.Core.List.{[], ◌∷◌, flat_map};
ghost use Rattle.shape.specs.Shape.{most_nodes};
ghost use Rattle.shape.specs.Refusals.{number_of};
ghost use Rattle.classes.specs.Steps.{other_rank};
ghost use Rattle.transfers.specs.Plan.{transfers, no_transfer, decimal, ending, line, transfer_line, plan_text, plan_room};
ghost use Rattle.transfers.specs.Promises.{Few, Plannable, Puts};

use shape::{Refusal, Shape};

// A message of the plan, by its nodes.
#[derive(Clone, Copy)]
pub struct Transfer {
    pub sender: usize,
    pub receiver: usize,
}

// ---- the transfers

// The j-th of the ranks but u, rising.
pub fn other_rank(u: usize, j: usize) -> usize
    requires { j ≤ most_nodes }
    ensures { result ≡ other_rank u j }
{
    if j < u {
        return j;
    }
    j + 1
}

// Transfer number e of a plan: "Helpers' messages come first, by receiver then sender; then exchanges likewise."
fn transfer_at(dead: &[usize], helpers: &[usize], e: usize) -> Transfer
    requires { Few dead.now helpers.now × (e < length (transfers dead.now helpers.now)) }
    ensures { result ≡ get_or (transfers dead.now helpers.now) e no_transfer }
{
    let h = dead.len();
    let senders = helpers.len();
    let messages = h * senders;
    if e < messages {
        let sender = helpers[e % senders];
        let receiver = dead[e / senders];
        return Transfer { sender, receiver };
    }
    let others = h - 1;
    let x = e - messages;
    let u = x / others;
    let sender = dead[other_rank(u, x % others)];
    let receiver = dead[u];
    Transfer { sender, receiver }
}

// ---- the text

// Writes a number's decimal digits at a place; the place behind them.
fn write_decimal(number: usize, text: &mut [u8], at: usize) -> usize
    requires { at + length (decimal number) ≤ length text.old }
    ensures { Puts (decimal number) text.old at text.new result }
{
    if number < 10 {
        text[at] = (48 + number) as u8;
        return at + 1;
    }
    let place = write_decimal(number / 10, text, at);
    text[place] = (48 + number % 10) as u8;
    place + 1
}

// The byte behind a number with `left` numbers of its line still to come.
fn ending(left: usize) -> u8
    ensures { result ≡ ending left }
{
    if left == 0 {
        return b'\n';
    }
    b' '
}

// Writes a line at a place; the place behind it.
fn write_line(numbers: &[usize], text: &mut [u8], at: usize) -> usize
    requires { at + length (line numbers.now) ≤ length text.old }
    ensures { Puts (line numbers.now) text.old at text.new result }
{
    let mut place = at;
    for (i, &number) in numbers.iter().enumerate() {
        place = write_decimal(number, text, place);
        text[place] = ending(numbers.len() - (i + 1));
        place += 1;
    }
    place
}

// "A refusal prints one line with its number."
pub fn write_refusal(cause: Refusal, text: &mut [u8]) -> usize
    requires { plan_room ≤ length text.old }
    ensures { Puts (line (number_of cause ∷ [])) text.old 0 text.new result }
{
    let numbers = [usize::from(cause)];
    write_line(&numbers, text, 0)
}

// "Then one line a message: sender, receiver, symbols."
fn write_transfers(
    symbols: usize,
    dead: &[usize],
    helpers: &[usize],
    text: &mut [u8],
    at: usize,
) -> usize
    requires { Few dead.now helpers.now × (at + length (flat_map (transfer_line symbols) (transfers dead.now helpers.now)) ≤ length text.old) }
    ensures { Puts (flat_map (transfer_line symbols) (transfers dead.now helpers.now)) text.old at text.new result }
{
    let h = dead.len();
    let count = h * (helpers.len() + (h - 1));
    let mut place = at;
    for e in 0..count {
        let t = transfer_at(dead, helpers, e);
        let numbers = [t.sender, t.receiver, symbols];
        place = write_line(&numbers, text, place);
    }
    place
}

// "Line 1 prints n k L h. Then one line a message .. Last line: the total, which is the wire buffer's length h(k+h)N/(h+1)."
pub fn write_plan(s: Shape, dead: &[usize], helpers: &[usize], text: &mut [u8]) -> usize
    requires { Plannable s dead.now helpers.now × (plan_room ≤ length text.old) }
    ensures { Puts (plan_text s dead.now helpers.now) text.old 0 text.new result }
{
    let k = s.k;
    let h = dead.len();
    let symbols = shape::size(s) / (h + 1);
    let first = [s.n, k, s.layers, h];
    let at = write_line(&first, text, 0);
    let behind = write_transfers(symbols, dead, helpers, text, at);
    let last = [h * (k + h) * symbols];
    write_line(&last, text, behind)
}
