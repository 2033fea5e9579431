// What a first step needs of the columns of a run of sums: sums of the helpers' sums, each times a multiplier that serves all batches. Own
// symbols are spread over their places, the other new nodes' sums handed out.
#![tactic(auto)]

ghost use Rattle.std.specs.Prelude.{◌≡◌, true, ℕ, ◌+◌, ◌*◌, ◌^◌, ◌≤◌, ◌<◌, length, get_or};
ghost use Rattle.lists.specs.Lists.{rising};
ghost use Rattle.shape.specs.Shape.{most_nodes};
ghost use Rattle.code.specs.Code.{narrow};
ghost use Rattle.rows.specs.Rows.{most_places, Low, remainder};
ghost use Rattle.tables.specs.Tables.{table_size};
ghost use Rattle.filling.specs.Filling.{Summable, InRun};
ghost use Rattle.classes.specs.Classes.{node, rank_class, members, message_size};
ghost use Rattle.classes.specs.Layout.{Ready, Fronted};
ghost use Rattle.solving.specs.Solving.{slot_of, slots, Gathered, row_sum, Multiplied, Spread, Places, Put, Other, slot_place, handed_sum};

use classes::{Layout, among};
use filling::sum_row;
use rows::{RUN, copy, store};
use shape::{MODULUS, MOST_NODES};
use tables::{entry_multipliers, idle, marks};

// A row of symbols for each node.
pub const SENT: usize = MOST_NODES * RUN;

// What the helpers sent of a run of sums, each in its row.
pub fn gather(
    g: Layout,
    helpers: &[usize],
    first: usize,
    run: usize,
    messages: &[u16],
) -> [u16; SENT]
    requires { (g.shape.n ≤ most_nodes) × (rising 0 g.shape.n helpers.now ≡ true) × (run ≤ most_places) × (first + run ≤ g.share) × (length messages.now ≡ length helpers.now * g.share) }
    ensures { Gathered helpers.now g.share first run messages.now (length helpers.now) result }
{
    let share = g.share;
    let mut sent = [0u16; SENT];
    for (j, &helper) in helpers.iter().enumerate() {
        copy(run, messages, j * share + first, helper * RUN, &mut sent);
    }
    sent
}

// A row of sums modulo 257, each at its place.
fn spread(run: usize, sums: [u32; RUN], base: usize, at: &[usize], out: &mut [u16])
    requires { (run ≤ most_places) × Places run base at.now (length out.old) }
    ensures { Spread run base at.now (remainder narrow.modulus sums) out.old out.new }
{
    for (&sum, &place) in sums[..run].iter().zip(at) {
        out[base + place] = (sum % MODULUS) as u16;
    }
}

// Entry i of the columns of a run, each at its place.
pub fn put_entry(
    helpers: &[usize],
    run: usize,
    table: &[u16],
    sent: &[u16],
    i: usize,
    base: usize,
    at: &[usize],
    out: &mut [u16],
)
    requires { Summable run most_places 0 helpers.now table.now (i * length helpers.now) sent.now × Places run base at.now (length out.old) }
    ensures { Spread run base at.now (row_sum table.now helpers.now i sent.now) out.old out.new }
{
    let sums = sum_row(run, RUN, 0, helpers, table, i * helpers.len(), sent);
    spread(run, sums, base, at, out);
}

// Where the message to rank v begins among those that rank u hands out, counted in messages: of all exchanges, or of its own.
fn slot(all: bool, h: usize, u: usize, v: usize) -> usize
    requires { (u < h) × (v < h) × (v ≡ u → ⊥) × (h ≤ most_nodes) }
    ensures { (result < slots all h) × (result ≡ slot_of all h u v) }
{
    if all {
        v * (h - 1) + among(v, u)
    } else {
        among(u, v)
    }
}

// A run of sums of the message to every other new node.
pub fn hand_out(
    g: Layout,
    dead: &[usize],
    helpers: &[usize],
    u: usize,
    all: bool,
    first: usize,
    run: usize,
    table: &[u16],
    sent: &[u16],
    out: &mut [u16],
)
    requires ready { (Ready dead.now g) × (u < length dead.now) × (run ≤ most_places) × (first + run ≤ message_size g.shape dead.now) × ((v : ℕ) → v < length dead.now → Summable run most_places 0 helpers.now table.now (node dead.now v * length helpers.now) sent.now) }
    requires out_len { length out.old ≡ slots all (length dead.now) * message_size g.shape dead.now }
    ensures { Put (Other (length dead.now) u) (message_size g.shape dead.now) (slot_place all (length dead.now) u (message_size g.shape dead.now)) (handed_sum dead.now helpers.now table.now sent.now first) (λ v x. InRun first run x) out.old out.new }
{
    let share = g.share;
    let h = dead.len();
    let k = helpers.len();
    for (v, &node) in dead.iter().enumerate() {
        if v == u {
            continue;
        }
        let sums = sum_row(run, RUN, 0, helpers, table, node * k, sent);
        store(MODULUS, run, sums, slot(all, h, u, v) * share + first, out);
    }
}

// The multipliers that rank u needs at a run of the members of its class.
pub fn run_table(
    g: Layout,
    dead: &[usize],
    helpers: &[usize],
    u: usize,
    class: &[u16],
    first: usize,
    run: usize,
    table: &mut [u16],
)
    requires ready { (Ready dead.now g) × (u < length dead.now) × (rising 0 g.shape.n helpers.now ≡ true) × (length helpers.now ≡ g.shape.k + 1) × ((v j : ℕ) → v < length dead.now → j < length helpers.now → get_or dead.now v 0 ≡ get_or helpers.now j 0 → ⊥) }
    requires fronted { (Fronted dead.now (rank_class dead.now u) g.shape.n class.now × (g.places ≤ length class.now)) × (run ≤ most_places) × (first + run ≤ length (members dead.now (rank_class dead.now u) (2 ^ g.shape.n))) × (length table.old ≡ table_size) × Low narrow.modulus table.old }
    ensures { (length table.new ≡ table_size) × Low narrow.modulus table.new × ((b : ℕ) → b < g.batches → Multiplied g.shape dead.now helpers.now u (b * length (members dead.now (rank_class dead.now u) (2 ^ g.shape.n)) + first) run table.new) }
{
    let s = g.shape;
    let n = s.n;
    let marked = marks(n + 1, helpers);
    let skipped = idle(n, dead);
    let mut each = [0usize; RUN];
    for (t, &member) in class[first..first + run].iter().enumerate() {
        each[t] = usize::from(member);
    }
    entry_multipliers(n, dead[u], &each, run, helpers, marked, skipped, table);
}
