// The first step of a new node, by itself: its own pairs, and its messages to the other new nodes.
#![tactic(auto)]

ghost use Rattle.std.specs.Prelude.{◌≡◌, false, ℕ, ◌+◌, ◌-◌, ◌*◌, ◌≤◌, ◌<◌, length};
ghost use Rattle.lists.specs.Lists.{element};
ghost use Rattle.rows.specs.Rows.{most_places};
ghost use Rattle.filling.specs.Filling.{InRun, InLayers};
ghost use Rattle.classes.specs.Classes.{message_size};
ghost use Rattle.classes.specs.Layout.{Ready};
ghost use Rattle.solving.specs.Solving.{Helped, FirstDone, Multiplied, HandedOut, Owned, pair_place};

use classes::{Layout, list_members, rank_class, with_table};
use rows::{RUN, run_from};
use solving::{gather, hand_out, put_entry, run_table};
use tables::TABLE;

// The even numbers.
fn doubled() -> [usize; RUN]
    ensures { (length result ≡ most_places) × ((t : ℕ) → t < most_places → element result t ≡ t * 2) }
{
    std::array::from_fn(|t| t * 2)
}

// The first step at a run of sums.
fn first_run(
    g: Layout,
    dead: &[usize],
    helpers: &[usize],
    u: usize,
    first: usize,
    run: usize,
    table: &[u16],
    messages: &[u16],
    pairs: &mut [u16],
    sums: &mut [u16],
)
    requires ready { (Ready dead.now g) × (Helped g.shape dead.now helpers.now u messages.now) × (run ≤ most_places) × (first + run ≤ message_size g.shape dead.now) × (Multiplied g.shape dead.now helpers.now u first run table.now) }
    requires pairs_len { (length pairs.old ≡ 2 * message_size g.shape dead.now) × (length sums.old ≡ (length dead.now - 1) * message_size g.shape dead.now) }
    ensures { Owned g.shape dead.now helpers.now u messages.now pair_place (InRun first run) pairs.old pairs.new × HandedOut g.shape dead.now helpers.now u messages.now false (InRun first run) sums.old sums.new }
{
    let s = g.shape;
    let n = s.n;
    let at = doubled();
    let sent = gather(g, helpers, first, run, messages);
    put_entry(helpers, run, table, &sent, dead[u], first * 2, &at, pairs);
    put_entry(helpers, run, table, &sent, n, first * 2 + 1, &at, pairs);
    hand_out(g, dead, helpers, u, false, first, run, table, &sent, sums);
}

// At a run of the members of the rank's class, in every batch.
fn first_batches(
    g: Layout,
    dead: &[usize],
    helpers: &[usize],
    u: usize,
    size: usize,
    first: usize,
    run: usize,
    table: &[u16],
    messages: &[u16],
    pairs: &mut [u16],
    sums: &mut [u16],
)
    requires ready { (Ready dead.now g) × (Helped g.shape dead.now helpers.now u messages.now) × (run ≤ most_places) × (first + run ≤ size) × (message_size g.shape dead.now ≡ g.batches * size) × ((b : ℕ) → b < g.batches → Multiplied g.shape dead.now helpers.now u (b * size + first) run table.now) }
    requires pairs_len { (length pairs.old ≡ 2 * message_size g.shape dead.now) × (length sums.old ≡ (length dead.now - 1) * message_size g.shape dead.now) }
    ensures { Owned g.shape dead.now helpers.now u messages.now pair_place (InLayers size first run g.batches) pairs.old pairs.new × HandedOut g.shape dead.now helpers.now u messages.now false (InLayers size first run g.batches) sums.old sums.new }
{
    let batches = g.batches;
    for b in 0..batches {
        first_run(
            g,
            dead,
            helpers,
            u,
            b * size + first,
            run,
            table,
            messages,
            pairs,
            sums,
        );
    }
}

// The first step of rank u, from the helpers' messages; the members of the rank's class go to a lent table.
fn first_with(
    g: Layout,
    dead: &[usize],
    helpers: &[usize],
    u: usize,
    class: &mut [u16],
    messages: &[u16],
    pairs: &mut [u16],
    sums: &mut [u16],
)
    requires ready { (Ready dead.now g) × (Helped g.shape dead.now helpers.now u messages.now) × (g.places ≤ length class.old) }
    requires pairs_len { (length pairs.old ≡ 2 * message_size g.shape dead.now) × (length sums.old ≡ (length dead.now - 1) * message_size g.shape dead.now) }
    ensures { FirstDone g.shape dead.now helpers.now u messages.now pairs.new sums.new }
{
    list_members(g, dead, rank_class(g, dead, u), class);
    let size = g.members;
    let mut table = [0u16; TABLE];
    let mut first = 0;
    // The step is the run's length.
    while first < size {
        let run = run_from(size, first);
        run_table(g, dead, helpers, u, class, first, run, &mut table);
        first_batches(
            g, dead, helpers, u, size, first, run, &table, messages, pairs, sums,
        );
        first += run;
    }
}

// The same, with a table of its own.
pub fn first_into(
    g: Layout,
    dead: &[usize],
    helpers: &[usize],
    u: usize,
    messages: &[u16],
    pairs: &mut [u16],
    sums: &mut [u16],
)
    requires ready { (Ready dead.now g) × (Helped g.shape dead.now helpers.now u messages.now) }
    requires pairs_len { (length pairs.old ≡ 2 * message_size g.shape dead.now) × (length sums.old ≡ (length dead.now - 1) * message_size g.shape dead.now) }
    ensures { FirstDone g.shape dead.now helpers.now u messages.now pairs.new sums.new }
{
    with_table(
        g.places,
        &mut |class| first_with(g, dead, helpers, u, class, messages, pairs, sums),
    );
}
