// Opening many stretches of a transcript from any k nodes in one reading (document 02 §2). Wanted bytes come in runs: between two numbers
// that starts and ends of stretches leave modulo the places of a layer, or of a node, a stretch has all bytes of a run or none. So one
// look decides about a run, and only runs of touched columns are looked at.
#![tactic(auto)]

ghost use Rattle.std.specs.Prelude.{◌≡◌, ◌⊎◌, true, false, ℕ, ◌+◌, ◌-◌, ◌*◌, ◌%◌, ◌^◌, ◌≤◌, ◌<◌, length, IfSome, get_or};
ghost use Rattle.lists.specs.Lists.{member, rising};
ghost use Rattle.shape.specs.Shape.{size};
ghost use Rattle.shape.specs.Refusals.{shape_bad, wrong_length, answer_number};
ghost use Rattle.code.specs.Code.{narrow};
ghost use Rattle.rows.specs.Rows.{most_places, Low, Stored};
ghost use Rattle.tables.specs.Tables.{table_size, Marks, Table};
ghost use Rattle.patterns.specs.Patterns.{Represented};
ghost use Rattle.filling.specs.Filling.{InRun};
ghost use Rattle.opening.specs.Steps.{opened, Factors, Walked};
ghost use Rattle.stretches.specs.Stretches.{most_stretches, bytes_wanted, touched_columns, column_list};
ghost use Rattle.stretches.specs.Refusals.{stretches_bad, past_end, touched_bad, stretches_size_refusal};
ghost use Rattle.stretches.specs.Promises.{OpensStretches};
ghost use Rattle.stretches.specs.Steps.{Bounded, Nearer, Uncut, Leaving, NextWanted, RunBad, TouchedRunBad, Whole, byte_at, ComeOut, AllOut, Legible, OpenedWanted};

use code::node_numbers;
use filling::sum_row;
use opening::open_row;
use patterns::{pays, represent};
use picking::run_multipliers;
use rows::{RUN, copy, run_from, store};
use shape::{MODULUS, Refusal, Shape, nodes_bad, shape_bad, size, symbol_bad, two_to};
use tables::{FLAGS, TABLE, marks};

// The numbers of "64 stretches".
const MOST_NUMBERS: usize = 128;

// Whether the lengths of the stretches together are not `room`. They are taken off it one by one, so that no sum wraps.
fn room_wrong(stretches: &[usize], room: usize) -> bool
    requires { length stretches.now ≤ 2 * most_stretches }
    ensures { result ≡ wrong_length room (bytes_wanted stretches.now) }
{
    let mut left = room;
    for pair in stretches.chunks_exact(2) {
        let long = pair[1];
        if left < long {
            return true;
        }
        left -= long;
    }
    left != 0
}

// Cause 4 of the stretches. Their count comes first, so that no long list is scanned.
fn stretches_bad(stretches: &[usize], room: usize) -> bool
    ensures { result ≡ stretches_bad stretches.now room }
{
    let numbers = stretches.len();
    if (MOST_NUMBERS < numbers) | (numbers % 2 != 0) {
        return true;
    }
    room_wrong(stretches, room)
}

// Cause 9: whether a stretch ends past the transcript. Nothing is added, so that nothing wraps.
fn past_end(stretches: &[usize], len: usize) -> bool
    requires { length stretches.now ≤ 2 * most_stretches }
    ensures { result ≡ past_end stretches.now len }
{
    for pair in stretches.chunks_exact(2) {
        let start = pair[0];
        if len < start {
            return true;
        }
        if len - start < pair[1] {
            return true;
        }
    }
    false
}

// Causes 1, 2, 4 and 9, in this order, for `held` symbols and buffers of `room` bytes and `entries` numbers.
fn judge_sizes(
    s: Shape,
    list: &[usize],
    held: usize,
    len: usize,
    stretches: &[usize],
    room: usize,
    entries: usize,
) -> Result<(), Refusal>
    ensures { answer_number result ≡ stretches_size_refusal s list.now held len stretches.now room entries 0 }
{
    if shape_bad(s) {
        return Err(Refusal::BadShape);
    }
    let n = s.n;
    let k = s.k;
    if nodes_bad(n, k, list) {
        return Err(Refusal::BadNodes);
    }
    let each = size(s);
    let due = k * each;
    if (held != due) | (due < len) | stretches_bad(stretches, room) | (entries != each) {
        return Err(Refusal::WrongLength);
    }
    if past_end(stretches, len) {
        return Err(Refusal::PastEnd);
    }
    Ok(())
}

// x where it lies behind `at` and before the end, else the end.
fn nearer(at: usize, x: usize, end: usize) -> usize
    ensures { Nearer at x end result }
{
    if (at < x) & (x < end) { x } else { end }
}

// The first number behind `at` that the start or the end of a stretch leaves modulo a number, and else that number.
fn next_cut(stretches: &[usize], modulus: usize, at: usize) -> usize
    requires { Bounded stretches.now (2 ^ 32) × (at < modulus) }
    ensures { Uncut stretches.now modulus at result }
{
    let mut end = modulus;
    for pair in stretches.chunks_exact(2) {
        let start = pair[0];
        let stop = start + pair[1];
        end = nearer(at, start % modulus, nearer(at, stop % modulus, end));
    }
    end
}

// The first number from `first` on that leaves `rest`.
fn leaving(modulus: usize, rest: usize, first: usize) -> usize
    requires { (rest < modulus) × (modulus ≤ 2 ^ 32) × (first ≤ 2 ^ 32) }
    ensures { Leaving modulus rest first result }
{
    first + (rest + modulus - first % modulus) % modulus
}

// b where it lies before the stop and before what was found, else what was found.
fn earlier(b: usize, stop: usize, found: usize) -> usize
    ensures { ((result ≡ b) × (b < stop) × (b < found)) ⊎ ((result ≡ found) × ((stop ≤ b) ⊎ (found ≤ b))) }
{
    if (b < stop) & (b < found) { b } else { found }
}

// The first wanted byte's number from `from` on that leaves `rest`, and `most` where there is none. Of a stretch that lies before, or behind
// what was found, no remainder is worked out.
fn next_wanted(stretches: &[usize], modulus: usize, rest: usize, from: usize, most: usize) -> usize
    requires { Bounded stretches.now most × (most ≤ 2 ^ 32) × (rest < modulus) × (modulus ≤ 2 ^ 32) × (from ≤ 2 ^ 32) }
    ensures { NextWanted stretches.now modulus rest from most result }
{
    let mut found = most;
    for pair in stretches.chunks_exact(2) {
        let start = pair[0];
        let stop = start + pair[1];
        if (stop <= from) | (found <= start) {
            continue;
        }
        let b = leaving(modulus, rest, start.max(from));
        found = earlier(b, stop, found);
    }
    found
}

// Whether one of k nodes, of `each` symbols, has a symbol above the largest from place `at` up to the end.
fn run_bad(k: usize, each: usize, at: usize, end: usize, symbols: &[u16]) -> bool
    requires { (k * each ≤ 2 ^ 32) × (at ≤ end) × (end ≤ each) × (length symbols.now ≡ k * each) }
    ensures { RunBad k each at end symbols.now result }
{
    for j in 0..k {
        let from = j * each + at;
        let to = j * each + end;
        if symbol_bad(MODULUS, &symbols[from..to]) {
            return true;
        }
    }
    false
}

// The same of the run of columns from `at` up to the end, where they are touched: others are not looked at.
fn run_touched_bad(s: Shape, stretches: &[usize], at: usize, end: usize, symbols: &[u16]) -> bool
    requires { (shape_bad s ≡ false) × Bounded stretches.now (s.k * size s) × Uncut stretches.now (size s) at end × (length symbols.now ≡ s.k * size s) }
    ensures { TouchedRunBad s stretches.now at end symbols.now result }
{
    let k = s.k;
    let each = size(s);
    let most = k * each;
    if most <= next_wanted(stretches, each, at, 0, most) {
        return false;
    }
    run_bad(k, each, at, end, symbols)
}

// Cause 5: the touched columns, a run after the other.
fn touched_bad(s: Shape, stretches: &[usize], symbols: &[u16]) -> bool
    requires { (shape_bad s ≡ false) × Bounded stretches.now (s.k * size s) × (length symbols.now ≡ s.k * size s) }
    ensures { result ≡ touched_bad narrow s symbols.now stretches.now }
{
    let each = size(s);
    let mut at = 0;
    // The step is a run of columns.
    while at < each {
        let end = next_cut(stretches, each, at);
        if run_touched_bad(s, stretches, at, end, symbols) {
            return true;
        }
        at = end;
    }
    false
}

// The index of x, which is in the list.
fn position(list: &[usize], x: usize) -> usize
    requires { member x list.now ≡ true }
    ensures { (result < length list.now) × (get_or list.now result 0 ≡ x) }
{
    list.iter().position(|&y| x == y).unwrap_or(0)
}

// The data symbols of a run of bytes from b on, on one node: as they were handed in, or by multipliers.
fn data_row(
    s: Shape,
    b: usize,
    run: usize,
    list: &[usize],
    marked: [bool; FLAGS],
    table: &[u16],
    symbols: &[u16],
) -> [u16; RUN]
    requires placed { (shape_bad s ≡ false) × (rising 0 s.n list.now ≡ true) × (length list.now ≡ s.k) × Marks s.n list.now marked × (b < s.k * size s) × (run ≤ most_places) × (b % size s + run ≤ size s) }
    requires table_len { (length table.now ≡ table_size) × Low narrow.modulus table.now × (length symbols.now ≡ s.k * size s) × ((j t : ℕ) → j < s.k → t < run → get_or symbols.now (j * size s + b % size s + t) 0 < narrow.modulus) }
    ensures { (length result ≡ most_places) × (Factors s list.now table.now (b % size s) run → (t : ℕ) → t < run → opened s list.now symbols.now (b + t) ≡ get_or result t 0) }
{
    let k = s.k;
    let each = size(s);
    let node = b / each;
    let place = b % each;
    let mut row = [0u16; RUN];
    if !marked[node] {
        let all = node_numbers();
        let sums = sum_row(run, each, place, &all[..k], table, node * k, symbols);
        store(MODULUS, run, sums, 0, &mut row);
        return row;
    }
    let from = position(list, node) * each + place;
    copy(run, symbols, from, 0, &mut row);
    row
}

// A run of data symbols, judged and, as far as `room` goes, stored, in each stretch that has them.
fn place_row(
    stretches: &[usize],
    b: usize,
    len: usize,
    room: usize,
    row: &[u16],
    bytes: &mut [u8],
) -> bool
    requires { Bounded stretches.now (2 ^ 32) × Whole stretches.now b (length row.now) × (room ≤ len) × (room ≤ length bytes.old) }
    ensures { (D : ℕ → ℕ) → ((t : ℕ) → t < length row.now → D (b + t) ≡ get_or row.now t 0) → Walked (λ e. D (byte_at stretches.now e)) len room (ComeOut stretches.now (InRun b (length row.now))) bytes.old bytes.new result }
{
    let mut at = 0;
    for pair in stretches.chunks_exact(2) {
        let start = pair[0];
        let long = pair[1];
        if (b < start) | (start + long <= b) {
            at += long;
            continue;
        }
        if !open_row(len, room, at + b - start, row, bytes) {
            return false;
        }
        at += long;
    }
    true
}

// The wanted bytes at a, a + 1, .. of every layer and node, a run after the other.
fn open_rows(
    s: Shape,
    a: usize,
    run: usize,
    list: &[usize],
    marked: [bool; FLAGS],
    table: &[u16],
    symbols: &[u16],
    stretches: &[usize],
    len: usize,
    room: usize,
    bytes: &mut [u8],
) -> bool
    requires legible { Legible s list.now symbols.now stretches.now × Marks s.n list.now marked × (0 < run) × (run ≤ most_places) × Uncut stretches.now (2 ^ s.n) a (a + run) }
    requires table_len { (length table.now ≡ table_size) × Low narrow.modulus table.now × Table s.n a run list.now s.k table.now × (room ≤ len) × (room ≤ length bytes.old) }
    ensures { Walked (λ e. opened s list.now symbols.now (byte_at stretches.now e)) len room (ComeOut stretches.now (λ y. InRun a run (y % 2 ^ s.n))) bytes.old bytes.new result }
{
    let n = s.n;
    let k = s.k;
    let two = two_to(n);
    let most = k * size(s);
    let mut b = next_wanted(stretches, two, a, 0, most);
    // The step leads to the next wanted byte at a.
    while b < most {
        let row = data_row(s, b, run, list, marked, table, symbols);
        if !place_row(stretches, b, len, room, &row[..run], bytes) {
            return false;
        }
        b = next_wanted(stretches, two, a, b + 1, most);
    }
    true
}

// All wanted bytes, judged and, as far as `room` goes, stored: what both judging and storing run. The multipliers of an a are worked out
// once for all bytes at it, and only where there are some.
fn walk(
    s: Shape,
    list: &[usize],
    marked: [bool; FLAGS],
    source: Option<&[u16]>,
    symbols: &[u16],
    stretches: &[usize],
    len: usize,
    room: usize,
    bytes: &mut [u8],
) -> bool
    requires { Legible s list.now symbols.now stretches.now × Marks s.n list.now marked × IfSome source (λ few. Represented s.n marked list.now s.k few.now) × (room ≤ len) × (room ≤ length bytes.old) }
    ensures { Walked (λ e. opened s list.now symbols.now (byte_at stretches.now e)) len room (AllOut stretches.now) bytes.old bytes.new result }
{
    let n = s.n;
    let k = s.k;
    let two = two_to(n);
    let most = k * size(s);
    let mut table = [0u16; TABLE];
    let mut a = 0;
    // The step is a run of places of a layer.
    while a < two {
        let end = next_cut(stretches, two, a);
        if most <= next_wanted(stretches, two, a, 0, most) {
            a = end;
            continue;
        }
        let run = run_from(end, a);
        run_multipliers(n, k, a, run, list, marked, source, &mut table);
        if !open_rows(
            s, a, run, list, marked, &table, symbols, stretches, len, room, bytes,
        ) {
            return false;
        }
        a += run;
    }
    true
}

// Whether the wanted bytes are none but bytes, judged first, with nothing stored; if so, they are then stored.
fn judge_and_store(
    s: Shape,
    list: &[usize],
    marked: [bool; FLAGS],
    source: Option<&[u16]>,
    symbols: &[u16],
    stretches: &[usize],
    bytes: &mut [u8],
) -> bool
    requires { Legible s list.now symbols.now stretches.now × Marks s.n list.now marked × IfSome source (λ few. Represented s.n marked list.now s.k few.now) × (length bytes.old ≡ bytes_wanted stretches.now) }
    ensures { OpenedWanted s list.now symbols.now stretches.now bytes.old bytes.new result }
{
    let len = bytes.len();
    if !walk(s, list, marked, source, symbols, stretches, len, 0, bytes) {
        return false;
    }
    walk(s, list, marked, source, symbols, stretches, len, len, bytes);
    true
}

// The wanted bytes, by multipliers picked from few where that pays; whether they are none but bytes (cause 7).
fn open_wanted(
    s: Shape,
    list: &[usize],
    symbols: &[u16],
    stretches: &[usize],
    bytes: &mut [u8],
) -> bool
    requires { Legible s list.now symbols.now stretches.now × (length bytes.old ≡ bytes_wanted stretches.now) }
    ensures { OpenedWanted s list.now symbols.now stretches.now bytes.old bytes.new result }
{
    let n = s.n;
    let k = s.k;
    let marked = marks(n, list);
    if !pays(n, marked) {
        return judge_and_store(s, list, marked, None, symbols, stretches, bytes);
    }
    let mut few = [0u16; TABLE];
    represent(n, k, list, marked, &mut few);
    judge_and_store(s, list, marked, Some(&few), symbols, stretches, bytes)
}

// The numbers from `first` on, at `count` places of a list from `at` on.
fn number_columns(first: usize, count: usize, at: usize, columns: &mut [usize])
    requires { (first + count ≤ 2 ^ 32) × (at + count ≤ length columns.old) }
    ensures { Stored at count (◌+◌ first) columns.old columns.new }
{
    for (i, column) in columns[at..at + count].iter_mut().enumerate() {
        *column = first + i;
    }
}

// Zeros from `at` on.
fn clear(at: usize, columns: &mut [usize])
    requires { at ≤ length columns.old }
    ensures { Stored at (length columns.old - at) (λ _. 0) columns.old columns.new }
{
    columns[at..].fill(0);
}

// The touched columns, rising, a run after the other, and zeros behind them; how many there are.
fn list_columns(s: Shape, stretches: &[usize], columns: &mut [usize]) -> usize
    requires { (shape_bad s ≡ false) × Bounded stretches.now (s.k * size s) × (length columns.old ≡ size s) }
    ensures { (columns.new ≡ column_list s stretches.now) × (result ≡ length (touched_columns s stretches.now)) }
{
    let k = s.k;
    let each = size(s);
    let most = k * each;
    let mut count = 0;
    let mut at = 0;
    // The step is a run of columns.
    while at < each {
        let end = next_cut(stretches, each, at);
        if most <= next_wanted(stretches, each, at, 0, most) {
            at = end;
            continue;
        }
        number_columns(at, end - at, count, columns);
        count += end - at;
        at = end;
    }
    clear(count, columns);
    count
}

// Stretches of the transcript of `len` bytes from any k nodes, and the columns that they touch; how many symbols were read, k times the count
// of touched columns.
pub fn open_stretches(
    s: Shape,
    list: &[usize],
    symbols: &[u16],
    len: usize,
    stretches: &[usize],
    bytes: &mut [u8],
    columns: &mut [usize],
) -> Result<usize, Refusal>
    ensures { OpensStretches s list.now symbols.now len stretches.now bytes.old bytes.new columns.old columns.new result }
{
    let room = bytes.len();
    let entries = columns.len();
    judge_sizes(s, list, symbols.len(), len, stretches, room, entries)?;
    if touched_bad(s, stretches, symbols) {
        return Err(Refusal::BadSymbol);
    }
    if !open_wanted(s, list, symbols, stretches, bytes) {
        return Err(Refusal::NoTranscript);
    }
    let count = list_columns(s, stretches, columns);
    Ok(s.k * count)
}
