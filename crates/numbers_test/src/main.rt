// Numbers, executed: two groups of cases, the answers of each in one line of output: a digest of them, and behind it how often
// each number was answered, 0 to 8. The stored output is written by another program, from document 01 alone:
// python3 tests/card_expected.py numbers > crates/numbers_test/stdout
#![tactic(auto)]

use numbers::{Number, read_number};
use std::io;

// Bytes that start, continue and end numbers.
const BYTES: [u8; 6] = [0, 1, 3, 128, 129, 255];

const LARGEST: usize = 18446744073709551615;

// The prime and the base of the digest, a polynomial.
const PRIME: u64 = 4294967291;

const BASE: u64 = 1000003;

// A digest, and how often a number was read (0) or malformed (6); reading answers nothing else.
#[derive(Clone, Copy)]
struct Tally {
    digest: u64,
    read: u64,
    malformed: u64,
}

// A digest with x added to it.
fn mixed(digest: u64, x: usize) -> u64 {
    (digest % PRIME * BASE + x as u64 % PRIME) % PRIME
}

fn read(t: Tally, bytes: &[u8], at: usize) -> Tally {
    match read_number(bytes, at) {
        Some(Number { value, next }) => Tally {
            digest: mixed(mixed(mixed(t.digest, 0), value), next),
            read: t.read % PRIME + 1,
            ..t
        },
        None => Tally {
            digest: mixed(t.digest, 6),
            malformed: t.malformed % PRIME + 1,
            ..t
        },
    }
}

// The byte for the last digit of a code to the base 6.
fn coded(code: usize) -> u8 {
    let bytes = BYTES;
    bytes[code % 6]
}

// The first n bytes.
fn front(bytes: &[u8], n: usize) -> &[u8] {
    if bytes.len() < n { bytes } else { &bytes[0..n] }
}

// Numbers at each place of up to five bytes, and behind them.
fn placed(t: Tally, i: usize) -> Tally {
    let bytes = [
        coded(i),
        coded(i / 6),
        coded(i / 36),
        coded(i / 216),
        coded(i / 1296),
    ];
    let some = front(&bytes, i / 7776 % 6);
    let at = i / 46656 % 8;
    if at < 7 {
        read(t, some, at)
    } else {
        read(t, some, LARGEST)
    }
}

// Every two bytes.
fn paired(t: Tally, i: usize) -> Tally {
    let bytes = [(i / 256 % 256) as u8, (i % 256) as u8];
    read(t, &bytes, 0)
}

fn print(rt: &impl Print, n: u64, behind: &[u8]) -> io::Result<()> {
    print!(rt; "{n}")?;
    rt.write_all(behind)
}

fn report(rt: &impl Print, name: &[u8], t: Tally) -> io::Result<()> {
    rt.write_all(name)?;
    print(rt, t.digest, b" ")?;
    print(rt, t.read, b" 0 0 0 0 0 ")?;
    print(rt, t.malformed, b" 0 0\n")
}

// The cases 0 to cases − 1, each added to the tally by `add`.
fn run<F: Fn(Tally, usize) -> Tally>(
    rt: &impl Print,
    name: &[u8],
    add: F,
    cases: usize,
) -> io::Result<()>
    requires { F.IsAlwaysCallable add }
{
    let mut t = Tally {
        digest: 0,
        read: 0,
        malformed: 0,
    };
    for i in 0..cases {
        t = add(t, i);
    }
    report(rt, name, t)
}

fn main(rt: HostRuntime) -> io::Result<()> {
    run(&rt, b"placed ", placed, 373248)?;
    run(&rt, b"paired ", paired, 65536)
}
