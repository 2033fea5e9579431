// Opening: a transcript from any k nodes of an archive (demand 2). A data node that is listed is copied; the symbols of another are sums of
// the k listed ones at their place, each times a multiplier of its a, which serves all layers (document 02, §4).
#![tactic(auto)]

ghost use Rattle.std.specs.Prelude.{◌≡◌, true, false, List, ℕ, ◌+◌, ◌*◌, ◌^◌, ◌≤◌, ◌<◌, length, IfSome, get_or};
ghost use Rattle.lists.specs.Lists.{element};
ghost use Rattle.shape.specs.declared.Shape.{Shape};
ghost use Rattle.shape.specs.Shape.{size, byte_values};
ghost use Rattle.shape.specs.Refusals.{shape_bad, answer_number};
ghost use Rattle.code.specs.Code.{narrow};
ghost use Rattle.code.specs.Refusals.{open_input_refusal};
ghost use Rattle.code.specs.Promises.{Opens};
ghost use Rattle.rows.specs.Rows.{most_places, Low, Stored};
ghost use Rattle.tables.specs.Tables.{table_size, Marks};
ghost use Rattle.patterns.specs.Patterns.{Represented};
ghost use Rattle.filling.specs.Filling.{InRun};
ghost use Rattle.opening.specs.Steps.{Readable, Factors, MissingRow, BeforeEnd, RowFits, opened, Walked, OneOf, OfListed, AtRun, AtLayer, Missing, AllData, AllListed, OpenedAll};

use code::node_numbers;
use filling::{run_of, sum_row};
use patterns::{pays, represent};
use picking::run_multipliers;
use rows::{RUN, store};
use shape::{BYTE_VALUES, MODULUS, Refusal, Shape, nodes_bad, shape_bad, size, symbol_bad, two_to};
use tables::{FLAGS, TABLE, marks};

// Causes 1, 2, 4 and 5 of opening into a buffer of `room` bytes, in this order.
fn judge_open(
    s: Shape,
    list: &[usize],
    symbols: &[u16],
    len: usize,
    room: usize,
) -> Result<(), Refusal>
    ensures { answer_number result ≡ open_input_refusal narrow s list.now symbols.now len room 0 }
{
    if shape_bad(s) {
        return Err(Refusal::BadShape);
    }
    let n = s.n;
    let k = s.k;
    if nodes_bad(n, k, list) {
        return Err(Refusal::BadNodes);
    }
    let due = k * size(s);
    if (symbols.len() != due) | (due < len) | (room != len) {
        return Err(Refusal::WrongLength);
    }
    if symbol_bad(MODULUS, symbols) {
        return Err(Refusal::BadSymbol);
    }
    Ok(())
}

// How many of `count` places from `at` on lie before the end.
fn before_end(end: usize, at: usize, count: usize) -> usize
    ensures { BeforeEnd end at count result }
{
    end.saturating_sub(at).min(count)
}

// Whether a row of data symbols may stand from `at` on: not "a data symbol within the length is 256, or one beyond it is not 0".
fn row_fits(len: usize, at: usize, row: &[u16]) -> bool
    ensures { RowFits len at row.now result }
{
    let count = row.len();
    let within = before_end(len, at, count);
    !(symbol_bad(BYTE_VALUES, &row[..within]) | symbol_bad(1, &row[within..count]))
}

// A row of data symbols stored as bytes, from `at` on. Where the row is empty, `at` may lie past the transcript.
fn store_bytes(row: &[u16], at: usize, transcript: &mut [u8])
    requires { (t : ℕ) → t < length row.now → (at + t < length transcript.old) × (get_or row.now t 0 < byte_values) }
    ensures { Stored at (length row.now) (element row.now) transcript.old transcript.new }
{
    if row.is_empty() {
        return;
    }
    for (t, byte) in transcript[at..at + row.len()].iter_mut().enumerate() {
        *byte = row[t] as u8;
    }
}

// A row of data symbols, from `at` on, judged and, where they may stand there, stored as far as `room` goes.
pub fn open_row(len: usize, room: usize, at: usize, row: &[u16], transcript: &mut [u8]) -> bool
    requires { (room ≤ len) × (room ≤ length transcript.old) }
    ensures { (D : ℕ → ℕ) → ((t : ℕ) → t < length row.now → D (at + t) ≡ get_or row.now t 0) → Walked D len room (InRun at (length row.now)) transcript.old transcript.new result }
{
    if !row_fits(len, at, row) {
        return false;
    }
    let count = before_end(room, at, row.len());
    store_bytes(&row[..count], at, transcript);
    true
}

// The data nodes that are listed, judged and, as far as `room` goes, stored: each as it was handed in.
fn open_listed(
    s: Shape,
    list: &[usize],
    symbols: &[u16],
    len: usize,
    room: usize,
    transcript: &mut [u8],
) -> bool
    requires { Readable s list.now symbols.now × (room ≤ len) × (room ≤ length transcript.old) }
    ensures { Walked (opened s list.now symbols.now) len room (OneOf s.k (OfListed s list.now)) transcript.old transcript.new result }
{
    let each = size(s);
    for (j, &node) in list.iter().enumerate() {
        if s.k <= node {
            continue;
        }
        let from = j * each;
        let to = from + each;
        if !open_row(len, room, node * each, &symbols[from..to], transcript) {
            return false;
        }
    }
    true
}

// What data node i, which is not listed, holds at a run of places: of the multipliers there and of the k symbols at each place.
fn missing_row(
    s: Shape,
    place: usize,
    run: usize,
    i: usize,
    table: &[u16],
    symbols: &[u16],
) -> [u16; RUN]
    requires { (shape_bad s ≡ false) × (i < s.k) × (run ≤ most_places) × (place + run ≤ size s) × (length table.now ≡ table_size) × Low narrow.modulus table.now × (length symbols.now ≡ s.k * size s) × Low narrow.modulus symbols.now }
    ensures { MissingRow s place run i table.now symbols.now result }
{
    let k = s.k;
    let all = node_numbers();
    let sums = sum_row(run, size(s), place, &all[..k], table, i * k, symbols);
    let mut row = [0u16; RUN];
    store(MODULUS, run, sums, 0, &mut row);
    row
}

// The data nodes that are not listed, at a run of places.
fn open_run(
    s: Shape,
    place: usize,
    run: usize,
    list: &[usize],
    marked: [bool; FLAGS],
    table: &[u16],
    symbols: &[u16],
    len: usize,
    room: usize,
    transcript: &mut [u8],
) -> bool
    requires { Readable s list.now symbols.now × Marks s.n list.now marked × (run ≤ most_places) × (place + run ≤ size s) × (length table.now ≡ table_size) × Low narrow.modulus table.now × Factors s list.now table.now place run × (room ≤ len) × (room ≤ length transcript.old) }
    ensures { Walked (opened s list.now symbols.now) len room (OneOf s.k (AtRun s list.now run place)) transcript.old transcript.new result }
{
    let k = s.k;
    let each = size(s);
    for i in 0..k {
        if marked[i] {
            continue;
        }
        let row = missing_row(s, place, run, i, table, symbols);
        if !open_row(len, room, i * each + place, &row[..run], transcript) {
            return false;
        }
    }
    true
}

// The same at a, a + 1, .. of every layer. The table is lent to be worked in.
fn open_layers(
    s: Shape,
    a: usize,
    run: usize,
    list: &[usize],
    marked: [bool; FLAGS],
    source: Option<&[u16]>,
    table: &mut [u16],
    symbols: &[u16],
    len: usize,
    room: usize,
    transcript: &mut [u8],
) -> bool
    requires { Readable s list.now symbols.now × Marks s.n list.now marked × IfSome source (λ few. Represented s.n marked list.now s.k few.now) × (run ≤ most_places) × (a + run ≤ 2 ^ s.n) × (length table.old ≡ table_size) × Low narrow.modulus table.old × (room ≤ len) × (room ≤ length transcript.old) }
    ensures { (length table.new ≡ table_size) × Low narrow.modulus table.new × Walked (opened s list.now symbols.now) len room (OneOf s.layers (AtLayer s list.now run a)) transcript.old transcript.new result }
{
    let n = s.n;
    let k = s.k;
    let layers = s.layers;
    let two = two_to(n);
    run_multipliers(n, k, a, run, list, marked, source, table);
    for layer in 0..layers {
        if !open_run(
            s,
            layer * two + a,
            run,
            list,
            marked,
            table,
            symbols,
            len,
            room,
            transcript,
        ) {
            return false;
        }
    }
    true
}

// The data nodes that are not listed, a run after the other.
fn open_runs(
    s: Shape,
    list: &[usize],
    marked: [bool; FLAGS],
    source: Option<&[u16]>,
    symbols: &[u16],
    len: usize,
    room: usize,
    transcript: &mut [u8],
) -> bool
    requires { Readable s list.now symbols.now × Marks s.n list.now marked × IfSome source (λ few. Represented s.n marked list.now s.k few.now) × (room ≤ len) × (room ≤ length transcript.old) }
    ensures { Walked (opened s list.now symbols.now) len room (Missing s list.now) transcript.old transcript.new result }
{
    let n = s.n;
    let two = two_to(n);
    let run = run_of(n);
    let mut table = [0u16; TABLE];
    for block in 0..two / run {
        if !open_layers(
            s,
            block * run,
            run,
            list,
            marked,
            source,
            &mut table,
            symbols,
            len,
            room,
            transcript,
        ) {
            return false;
        }
    }
    true
}

// All data symbols, judged and, as far as `room` goes, stored: what both judging and storing run.
fn walk(
    s: Shape,
    list: &[usize],
    marked: [bool; FLAGS],
    source: Option<&[u16]>,
    symbols: &[u16],
    len: usize,
    room: usize,
    transcript: &mut [u8],
) -> bool
    requires { Readable s list.now symbols.now × Marks s.n list.now marked × IfSome source (λ few. Represented s.n marked list.now s.k few.now) × (room ≤ len) × (room ≤ length transcript.old) }
    ensures { Walked (opened s list.now symbols.now) len room (AllData s) transcript.old transcript.new result }
{
    if !open_listed(s, list, symbols, len, room, transcript) {
        return false;
    }
    open_runs(s, list, marked, source, symbols, len, room, transcript)
}

// Cause 7 judged first, with nothing stored; then the bytes of the transcript.
fn judge_and_store(
    s: Shape,
    list: &[usize],
    marked: [bool; FLAGS],
    source: Option<&[u16]>,
    symbols: &[u16],
    transcript: &mut [u8],
) -> Result<(), Refusal>
    requires { (open_input_refusal narrow s list.now symbols.now (length transcript.old) (length transcript.old) 0 ≡ 0) × Marks s.n list.now marked × IfSome source (λ few. Represented s.n marked list.now s.k few.now) }
    ensures { OpenedAll s list.now symbols.now transcript.old transcript.new result }
{
    let len = transcript.len();
    if !walk(s, list, marked, source, symbols, len, 0, transcript) {
        return Err(Refusal::NoTranscript);
    }
    walk(s, list, marked, source, symbols, len, len, transcript);
    Ok(())
}

// Whether the k listed nodes are the data nodes themselves.
fn all_data(list: &[usize]) -> bool
    requires { 0 < length list.now }
    ensures { result ≡ true → AllListed list.now }
{
    let k = list.len();
    list[k - 1] < k
}

// Cause 7, and the bytes, where they are: a judgement and a copy.
fn copy_data(symbols: &[u16], transcript: &mut [u8]) -> Result<(), Refusal>
    requires { length transcript.old ≤ length symbols.now }
    ensures { (s : Shape) (list : List ℕ) → open_input_refusal narrow s list symbols.now (length transcript.old) (length transcript.old) 0 ≡ 0 → AllListed list → OpenedAll s list symbols.now transcript.old transcript.new result }
{
    let len = transcript.len();
    if !row_fits(len, 0, symbols) {
        return Err(Refusal::NoTranscript);
    }
    store_bytes(&symbols[..len], 0, transcript);
    Ok(())
}

// Cause 7, and the bytes, by multipliers picked from few where that pays.
fn open_data(
    s: Shape,
    list: &[usize],
    symbols: &[u16],
    transcript: &mut [u8],
) -> Result<(), Refusal>
    requires { open_input_refusal narrow s list.now symbols.now (length transcript.old) (length transcript.old) 0 ≡ 0 }
    ensures { OpenedAll s list.now symbols.now transcript.old transcript.new result }
{
    if all_data(list) {
        return copy_data(symbols, transcript);
    }
    let n = s.n;
    let k = s.k;
    let marked = marks(n, list);
    if !pays(n, marked) {
        return judge_and_store(s, list, marked, None, symbols, transcript);
    }
    let mut few = [0u16; TABLE];
    represent(n, k, list, marked, &mut few);
    judge_and_store(s, list, marked, Some(&few), symbols, transcript)
}

// The transcript of `len` bytes from any k nodes.
pub fn open(
    s: Shape,
    list: &[usize],
    symbols: &[u16],
    len: usize,
    transcript: &mut [u8],
) -> Result<(), Refusal>
    ensures { Opens s list.now symbols.now len transcript.old transcript.new result }
{
    judge_open(s, list, symbols, len, transcript.len())?;
    open_data(s, list, symbols, transcript)
}
