// The work of a whole repair: the helpers' messages on the wire, then each new node's first step, then each second step.
#![tactic(auto)]

ghost use Rattle.std.specs.Prelude.{◌≡◌, true, ℕ, ◌+◌, ◌-◌, ◌*◌, ◌^◌, ◌≤◌, ◌<◌, length, get_or};
ghost use Rattle.lists.specs.Lists.{element, rising};
ghost use Rattle.shape.specs.Shape.{size};
ghost use Rattle.code.specs.Code.{narrow};
ghost use Rattle.rows.specs.Rows.{most_places};
ghost use Rattle.filling.specs.Filling.{InRun, InLayers};
ghost use Rattle.classes.specs.Classes.{rank_class, members, sum_place, message_size};
ghost use Rattle.classes.specs.Layout.{Ready, Fronted};
ghost use Rattle.classes.specs.Whole.{from_helpers};
ghost use Rattle.solving.specs.Solving.{Multiplied};
ghost use Rattle.wiring.specs.Wires.{inward, inwards, Messaged, Wired, Offsets, OnWire, FirstOnWire, Exchanged, Renewable, Renewed};

use classes::{Layout, class_size, list_members, rank_class, turn_of};
use rows::{RUN, run_from};
use shape::size;
use solving::{gather, hand_out, put_entry, run_table};
use steps::{message_by, recover};
use tables::TABLE;

// The symbols of the helpers' messages to one rank.
pub fn told_by(g: Layout, dead: &[usize], helpers: &[usize]) -> usize
    requires { (Ready dead.now g) × (length helpers.now ≡ g.shape.k + 1) }
    ensures { result ≡ inward g.shape dead.now }
{
    helpers.len() * g.share
}

// The messages of the helpers to rank u, one behind the other; the members of the rank's class go to a lent table.
fn messages_to(
    g: Layout,
    dead: &[usize],
    helpers: &[usize],
    u: usize,
    class: &mut [u16],
    nodes: &[u16],
    out: &mut [u16],
)
    requires ready { (Ready dead.now g) × (u < length dead.now) × (rising 0 g.shape.n helpers.now ≡ true) × (g.places ≤ length class.old) }
    requires nodes_len { (length nodes.now ≡ g.shape.n * size g.shape) × (length out.old ≡ length helpers.now * message_size g.shape dead.now) }
    ensures { out.new ≡ from_helpers narrow g.shape dead.now helpers.now nodes.now u }
{
    list_members(g, dead, rank_class(g, dead, u), class);
    let share = g.share;
    let full = size(g.shape);
    for (j, &helper) in helpers.iter().enumerate() {
        let from = helper * full;
        let to = from + full;
        let at = j * share;
        let end = at + share;
        message_by(g, dead, u, class, &nodes[from..to], &mut out[at..end]);
    }
}

// The helpers' messages to every rank: "by receiver then sender".
pub fn send(
    g: Layout,
    dead: &[usize],
    helpers: &[usize],
    told: usize,
    class: &mut [u16],
    nodes: &[u16],
    wire: &mut [u16],
)
    requires ready { (Ready dead.now g) × (told ≡ inward g.shape dead.now) × (rising 0 g.shape.n helpers.now ≡ true) × (length helpers.now ≡ g.shape.k + 1) × (g.places ≤ length class.old) }
    requires nodes_len { (length nodes.now ≡ g.shape.n * size g.shape) × (inwards g.shape dead.now ≤ length wire.old) }
    ensures { Messaged g.shape dead.now helpers.now nodes.now wire.old wire.new }
{
    for u in 0..dead.len() {
        let at = u * told;
        let end = at + told;
        messages_to(g, dead, helpers, u, class, nodes, &mut wire[at..end]);
    }
}

// Where the own symbols of a run of sums stand in their batch: at the first places of the sums (which = 0), or at the others (1). `which` is a
// factor of the turn, and so a number.
fn offsets(
    g: Layout,
    dead: &[usize],
    u: usize,
    which: usize,
    class: &[u16],
    first: usize,
    run: usize,
) -> [usize; RUN]
    requires { (Ready dead.now g) × (u < length dead.now) × ((Fronted dead.now (rank_class dead.now u) g.shape.n class.now) × (g.places ≤ length class.now)) × (run ≤ most_places) × (first + run ≤ length (members dead.now (rank_class dead.now u) (2 ^ g.shape.n))) × (which < 2) }
    ensures { (length result ≡ most_places) × ((t : ℕ) → t < run → element result t ≡ sum_place g.shape dead.now u which 0 (get_or class.now (first + t) 0)) }
{
    let turn = turn_of(g, dead, u) * which;
    let mut out = [0usize; RUN];
    for (t, &member) in class[first..first + run].iter().enumerate() {
        out[t] = usize::from(member) ^ turn;
    }
    out
}

// The first step at a run of sums, from the messages on the wire: the own symbols go to their places in the node, the sums to theirs on
// the wire.
fn run_on_wire(
    g: Layout,
    dead: &[usize],
    helpers: &[usize],
    told: usize,
    u: usize,
    first: usize,
    run: usize,
    table: &[u16],
    row: usize,
    ones: &[usize],
    others: &[usize],
    part: &mut [u16],
    wire: &mut [u16],
)
    requires ready { (Ready dead.now g) × (u < length dead.now) × (told ≡ inward g.shape dead.now) × (length part.old ≡ size g.shape) × (Wired g.shape dead.now helpers.now wire.old) }
    requires run_fits { (run ≤ most_places) × (first + run ≤ message_size g.shape dead.now) × (Multiplied g.shape dead.now helpers.now u first run table.now) × (Offsets g.shape dead.now u first run row ones.now others.now) }
    ensures { OnWire g.shape dead.now helpers.now u (InRun first run) part.old part.new wire.old wire.new }
{
    let s = g.shape;
    let n = s.n;
    let at = u * told;
    let end = at + told;
    let base = dead.len() * told;
    let sent = gather(g, helpers, first, run, &wire[at..end]);
    put_entry(helpers, run, table, &sent, dead[u], row, ones, part);
    put_entry(helpers, run, table, &sent, n, row, others, part);
    hand_out(
        g,
        dead,
        helpers,
        u,
        true,
        first,
        run,
        table,
        &sent,
        &mut wire[base..],
    );
}

// At a run of the members of the rank's class, in every batch.
fn batches_on_wire(
    g: Layout,
    dead: &[usize],
    helpers: &[usize],
    told: usize,
    u: usize,
    count: usize,
    first: usize,
    run: usize,
    table: &[u16],
    ones: &[usize],
    others: &[usize],
    part: &mut [u16],
    wire: &mut [u16],
)
    requires ready { (Ready dead.now g) × (u < length dead.now) × (told ≡ inward g.shape dead.now) × (length part.old ≡ size g.shape) × (Wired g.shape dead.now helpers.now wire.old) }
    requires run_fits { (run ≤ most_places) × (first + run ≤ count) × (message_size g.shape dead.now ≡ g.batches * count) × ((b : ℕ) → b < g.batches → Multiplied g.shape dead.now helpers.now u (b * count + first) run table.now) × ((b : ℕ) → b < g.batches → Offsets g.shape dead.now u (b * count + first) run (b * g.batch * g.places) ones.now others.now) }
    ensures { OnWire g.shape dead.now helpers.now u (InLayers count first run g.batches) part.old part.new wire.old wire.new }
{
    let batches = g.batches;
    let batch = g.batch;
    let places = g.places;
    for b in 0..batches {
        run_on_wire(
            g,
            dead,
            helpers,
            told,
            u,
            b * count + first,
            run,
            table,
            b * batch * places,
            ones,
            others,
            part,
            wire,
        );
    }
}

// The first step of rank u from the messages on the wire; the members of the rank's class go to a lent table.
fn first_on_wire(
    g: Layout,
    dead: &[usize],
    helpers: &[usize],
    told: usize,
    u: usize,
    class: &mut [u16],
    part: &mut [u16],
    wire: &mut [u16],
)
    requires { (Ready dead.now g) × (u < length dead.now) × (told ≡ inward g.shape dead.now) × (length part.old ≡ size g.shape) × (Wired g.shape dead.now helpers.now wire.old) × (g.places ≤ length class.old) }
    ensures { FirstOnWire g.shape dead.now helpers.now u part.new wire.old wire.new }
{
    list_members(g, dead, rank_class(g, dead, u), class);
    let count = class_size(g, dead);
    let mut table = [0u16; TABLE];
    let mut first = 0;
    // The step is the run's length, which is less at the end.
    while first < count {
        let run = run_from(count, first);
        run_table(g, dead, helpers, u, class, first, run, &mut table);
        let ones = offsets(g, dead, u, 0, class, first, run);
        let others = offsets(g, dead, u, 1, class, first, run);
        batches_on_wire(
            g, dead, helpers, told, u, count, first, run, &table, &ones, &others, part, wire,
        );
        first += run;
    }
}

// Every rank's first step.
pub fn exchange(
    g: Layout,
    dead: &[usize],
    helpers: &[usize],
    told: usize,
    class: &mut [u16],
    nodes: &mut [u16],
    wire: &mut [u16],
)
    requires { (Ready dead.now g) × (told ≡ inward g.shape dead.now) × (length nodes.old ≡ g.shape.n * size g.shape) × (Wired g.shape dead.now helpers.now wire.old) × (g.places ≤ length class.old) }
    ensures { Exchanged g.shape dead.now helpers.now nodes.old nodes.new wire.old wire.new }
{
    let full = size(g.shape);
    for (u, &sender) in dead.iter().enumerate() {
        let at = sender * full;
        let end = at + full;
        first_on_wire(g, dead, helpers, told, u, class, &mut nodes[at..end], wire);
    }
}

// Every rank's second step, from its own pairs at their places and its messages on the wire.
pub fn renew(
    g: Layout,
    dead: &[usize],
    told: usize,
    class: &mut [u16],
    nodes: &mut [u16],
    wire: &[u16],
)
    requires { (Ready dead.now g) × (told ≡ inward g.shape dead.now) × (length nodes.old ≡ g.shape.n * size g.shape) × (length wire.now ≡ inwards g.shape dead.now + length dead.now * (length dead.now - 1) * message_size g.shape dead.now) × (Renewable g.shape dead.now nodes.old wire.now) × (g.places ≤ length class.old) }
    ensures { Renewed g.shape dead.now nodes.old nodes.new wire.now }
{
    let full = size(g.shape);
    let base = dead.len() * told;
    let part = (dead.len() - 1) * g.share;
    for (u, &receiver) in dead.iter().enumerate() {
        let at = receiver * full;
        let end = at + full;
        let from = base + u * part;
        let to = from + part;
        recover(g, dead, u, class, &wire[from..to], &mut nodes[at..end]);
    }
}
