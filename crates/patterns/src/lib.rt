// The patterns that a's bits make at the nodes that are not listed: a multiplier reads the points of its listed node and of the nodes that are
// not listed, that is, a's bits there, and stays where all of them turn. So one a is worked out for each pattern, with the bits of the listed
// nodes 0.
#![tactic(auto)]

ghost use Rattle.std.specs.Prelude.{◌≡◌, true, ℕ, ◌+◌, ◌*◌, ◌^◌, ◌<◌, ◌≤◌, length, get_or};
ghost use Rattle.lists.specs.Lists.{element, rising};
ghost use Rattle.lists.specs.Digits.{bit};
ghost use Rattle.shape.specs.Shape.{most_nodes};
ghost use Rattle.code.specs.Code.{narrow};
ghost use Rattle.rows.specs.Rows.{most_places, Low, Stored};
ghost use Rattle.tables.specs.Tables.{table_size, Marks};
ghost use Rattle.patterns.specs.Patterns.{pattern, patterns, lengthened, Stands, Represented};

use rows::RUN;
use shape::two_to;
use tables::{FLAGS, multipliers_at};

// "Bit i of a is its binary digit worth 2^i." In two bytes, as rows of patterns are, so that a compiler works on eight at a time.
pub fn bit(a: u16, i: usize) -> u16
    requires { i < most_nodes }
    ensures { result ≡ bit i a }
{
    (a >> i) % 2
}

// How many patterns the bits at the nodes that are not listed make.
pub fn count(n: usize, marked: [bool; FLAGS]) -> usize
    requires { n ≤ most_nodes }
    ensures { result ≡ patterns marked n }
{
    let mut out = 1;
    for &listed in marked[..n].iter() {
        if listed {
            continue;
        }
        out = 2 * out;
    }
    out
}

// Whether they are so few, and the places so many, that picking pays.
pub fn pays(n: usize, marked: [bool; FLAGS]) -> bool
    requires { n ≤ most_nodes }
    ensures { result ≡ true → patterns marked n ≤ most_places }
{
    let two = two_to(n);
    if two <= RUN {
        return false;
    }
    let patterns = count(n, marked);
    if RUN < patterns {
        return false;
    }
    8 * patterns <= two
}

// The number with a pattern's bits at the nodes that are not listed, and 0 at those that are.
fn number_of(n: usize, marked: [bool; FLAGS], pattern: usize) -> usize
    requires { n ≤ most_nodes }
    ensures { Stands n marked pattern result }
{
    let mut rest = pattern;
    let mut out = 0;
    for i in (0..n).rev() {
        if marked[i] {
            out = 2 * out;
            continue;
        }
        out = 2 * out + rest % 2;
        rest /= 2;
    }
    out
}

// Such a number for each pattern.
fn numbers_of(n: usize, marked: [bool; FLAGS], count: usize) -> [usize; RUN]
    requires { (n ≤ most_nodes) × (count ≤ most_places) }
    ensures { (length result ≡ most_places) × ((p : ℕ) → p < count → Stands n marked p (element result p)) }
{
    let mut out = [0usize; RUN];
    for (p, number) in out[..count].iter_mut().enumerate() {
        *number = number_of(n, marked, p);
    }
    out
}

// Their multipliers in each node below m that is not listed.
pub fn represent(n: usize, m: usize, list: &[usize], marked: [bool; FLAGS], table: &mut [u16])
    requires { (n ≤ most_nodes) × (m ≤ n) × (patterns marked n ≤ most_places) × (rising 0 n list.now ≡ true) × Marks n list.now marked × (length table.old ≡ table_size) × Low narrow.modulus table.old }
    ensures { Represented n marked list.now m table.new }
{
    let few = count(n, marked);
    let each = numbers_of(n, marked, few);
    multipliers_at(n, m, &each, few, list, marked, table);
}

// One bit more in each of a row of patterns.
fn lengthen(node: usize, a: usize, run: usize, row: &mut [u16; RUN])
    requires { (node < most_nodes) × (run ≤ most_places) × (a + run ≤ 2 ^ most_nodes) × (length row.old ≡ most_places) × ((t : ℕ) → t < run → get_or row.old t 0 < 2 ^ most_nodes) }
    ensures { Stored 0 run (lengthened a node row.old) row.old row.new }
{
    for (t, pattern) in row[..run].iter_mut().enumerate() {
        *pattern = 2 * *pattern + bit((a + t) as u16, node);
    }
}

// The patterns of a, a + 1, ..
pub fn patterns_of(n: usize, marked: [bool; FLAGS], a: usize, run: usize) -> [u16; RUN]
    requires { (n ≤ most_nodes) × (run ≤ most_places) × (a + run ≤ 2 ^ most_nodes) }
    ensures { (length result ≡ most_places) × ((t : ℕ) → t < run → element result t ≡ pattern marked (a + t) n) }
{
    let mut out = [0u16; RUN];
    for node in 0..n {
        if marked[node] {
            continue;
        }
        lengthen(node, a, run, &mut out);
    }
    out
}
