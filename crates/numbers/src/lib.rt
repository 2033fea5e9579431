// Numbers in seven-bit groups: read from a card or a program's input, and written.
#![tactic(auto)]

ghost use Rattle.std.specs.Prelude.{◌≡◌, true, ◌+◌, ◌^◌, ◌≤◌, ◌<◌, length};
ghost use mathlib.Core.List.{flat_map};
ghost use Rattle.std.proofs.lemmas.List.Edits.{sets};
ghost use Rattle.lists.specs.Lists.{all, below};
ghost use Rattle.numbers.specs.Numbers.{most_groups, group_values, numeral, number_at};

// "Only the shortest form is read"; "the card's number reading accepts up to four" groups (document 02 §7).
pub const MOST_GROUPS: usize = 4;

// The values of a group of seven bits.
const GROUP_VALUES: usize = 128;

// What is read at a place: a number and the place behind it.
#[derive(Clone, Copy)]
pub struct Number {
    pub value: usize,
    pub next: usize,
}

// The number at a place, group by group: least first, each worth GROUP_VALUES times the one before it.
fn read_groups(bytes: &[u8], at: usize) -> Option<Number>
    ensures { result ≡ number_at most_groups bytes.now at }
{
    let mut value = 0;
    let mut worth = 1;
    let mut place = at;
    for groups in 0..MOST_GROUPS {
        if bytes.len() <= place {
            return None;
        }
        let b = usize::from(bytes[place]);
        place += 1;
        if b < GROUP_VALUES {
            // A last group of 0 is not the shortest form.
            if (0 < groups) & (b == 0) {
                return None;
            }
            return Some(Number {
                value: value + worth * b,
                next: place,
            });
        }
        value += worth * (b - GROUP_VALUES);
        worth *= GROUP_VALUES;
    }
    None
}

// The number at a place, any place. Symbols have one or two groups, and which comes next nothing foretells: a number of one
// or two is read without a branch between them.
pub fn read_number(bytes: &[u8], at: usize) -> Option<Number>
    ensures { result ≡ number_at most_groups bytes.now at }
{
    if bytes.len() <= at {
        return None;
    }
    let next = at + 1;
    if next < bytes.len() {
        let b = usize::from(bytes[at]);
        let more = b / GROUP_VALUES; // 1 where a second group follows, else 0
        let high = more * usize::from(bytes[next]);
        if more <= high && high < GROUP_VALUES {
            return Some(Number {
                value: b % GROUP_VALUES + GROUP_VALUES * high,
                next: next + more,
            });
        }
    }
    read_groups(bytes, at)
}

// Writes a number at a place; the place behind it.
fn write_number(number: usize, card: &mut [u8], at: usize) -> usize
    requires { (number < group_values ^ most_groups) × (at + length (numeral most_groups number) ≤ length card.old) }
    ensures { (result ≡ at + length (numeral most_groups number)) × (card.new ≡ sets card.old at (numeral most_groups number)) }
{
    let mut rest = number;
    let mut place = at;
    while GROUP_VALUES <= rest {
        card[place] = (GROUP_VALUES + rest % GROUP_VALUES) as u8;
        rest /= GROUP_VALUES;
        place += 1;
    }
    card[place] = rest as u8;
    place + 1
}

// Writes numbers one behind the other from a place on; the place behind them.
pub fn write_numbers(numbers: &[usize], card: &mut [u8], at: usize) -> usize
    requires { (all (below (group_values ^ most_groups)) numbers.now ≡ true) × (at + length (flat_map (numeral most_groups) numbers.now) ≤ length card.old) }
    ensures { (result ≡ at + length (flat_map (numeral most_groups) numbers.now)) × (card.new ≡ sets card.old at (flat_map (numeral most_groups) numbers.now)) }
{
    let mut place = at;
    for &number in numbers {
        place = write_number(number, card, place);
    }
    place
}

// The same of symbols. The loops are two: clauses of one for both types would speak of a list that `map` makes, at usize too.
pub fn write_symbols(symbols: &[u16], card: &mut [u8], at: usize) -> usize
    requires { at + length (flat_map (numeral most_groups) symbols.now) ≤ length card.old }
    ensures { (result ≡ at + length (flat_map (numeral most_groups) symbols.now)) × (card.new ≡ sets card.old at (flat_map (numeral most_groups) symbols.now)) }
{
    let mut place = at;
    for &symbol in symbols {
        place = write_number(usize::from(symbol), card, place);
    }
    place
}
