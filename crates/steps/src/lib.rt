// A helper's message to a new node, and the second step of a new node.
#![tactic(auto)]

ghost use Rattle.std.specs.Prelude.{◌≡◌, ◌-◌, ◌*◌, ◌≤◌, ◌<◌, length};
ghost use Rattle.lists.specs.Lists.{element};
ghost use Rattle.shape.specs.Shape.{size};
ghost use Rattle.classes.specs.Classes.{rank_class, message_size};
ghost use Rattle.classes.specs.Steps.{helper_message, contents};
ghost use Rattle.classes.specs.Layout.{Ready, Fronted};
ghost use Rattle.steps.specs.Storing.{Paired, OwnLow, LowAt, sent_by, Crossed, Begun, Recovers};
ghost use Rattle.rows.specs.Rows.{Low};
ghost use Rattle.code.specs.Code.{narrow};

use batches::{add_batch, cross_batch, pair_batch};
use classes::{Layout, among, list_members, rank_class, turn_of, with_table};

// The message to rank u of a helper with these N symbols, batch by batch; the table has the members of the rank's class.
pub fn message_by(
    g: Layout,
    dead: &[usize],
    u: usize,
    table: &[u16],
    symbols: &[u16],
    message: &mut [u16],
)
    requires { (Ready dead.now g) × (u < length dead.now) × (g.places ≤ length table.now) × (Fronted dead.now (rank_class dead.now u) g.shape.n table.now) × (length symbols.now ≡ size g.shape) × (length message.old ≡ message_size g.shape dead.now) }
    ensures { message.new ≡ helper_message narrow g.shape dead.now u symbols.now }
{
    let count = g.members;
    let turn = turn_of(g, dead, u);
    let block = g.batch * g.places;
    let batches = g.batches;
    // Cut by number: of what is written through `chunks_exact_mut` a proof knows the length alone.
    for b in 0..batches {
        let at = b * block;
        let end = at + block;
        let from = b * count;
        let to = from + count;
        add_batch(
            g.top == 0,
            &table[..count],
            turn,
            &symbols[at..end],
            &mut message[from..to],
        );
    }
}

// The same, with a lent table for the members.
fn message_with(
    g: Layout,
    dead: &[usize],
    u: usize,
    table: &mut [u16],
    symbols: &[u16],
    message: &mut [u16],
)
    requires { (Ready dead.now g) × (u < length dead.now) × (g.places ≤ length table.old) × (length symbols.now ≡ size g.shape) × (length message.old ≡ message_size g.shape dead.now) }
    ensures { message.new ≡ helper_message narrow g.shape dead.now u symbols.now }
{
    list_members(g, dead, rank_class(g, dead, u), table);
    message_by(g, dead, u, table, symbols, message);
}

// The same, with a table of its own.
pub fn message_to(g: Layout, dead: &[usize], u: usize, symbols: &[u16], message: &mut [u16])
    requires { (Ready dead.now g) × (u < length dead.now) × (length symbols.now ≡ size g.shape) × (length message.old ≡ message_size g.shape dead.now) }
    ensures { message.new ≡ helper_message narrow g.shape dead.now u symbols.now }
{
    with_table(
        g.places,
        &mut |table| message_with(g, dead, u, table, symbols, message),
    );
}

// Stores rank u's own pairs at the places of its sums; the members of the rank's class go to a lent table.
fn pairs_with(
    g: Layout,
    dead: &[usize],
    u: usize,
    table: &mut [u16],
    pairs: &[u16],
    symbols: &mut [u16],
)
    requires { (Ready dead.now g) × (u < length dead.now) × (g.places ≤ length table.old) × (length pairs.now ≡ 2 * message_size g.shape dead.now) × (length symbols.old ≡ size g.shape) }
    ensures { (Paired g.shape dead.now u pairs.now symbols.new) × (Fronted dead.now (rank_class dead.now u) g.shape.n table.new) }
{
    list_members(g, dead, rank_class(g, dead, u), table);
    let count = g.members;
    let turn = turn_of(g, dead, u);
    let block = g.batch * g.places;
    let double = count * 2;
    let batches = g.batches;
    // Cut by number: of what is written through `chunks_exact_mut` a proof knows the length alone.
    for b in 0..batches {
        let at = b * block;
        let end = at + block;
        let from = b * double;
        let to = from + double;
        pair_batch(
            &table[..count],
            turn,
            &pairs[from..to],
            &mut symbols[at..end],
        );
    }
}

// Stores at the places `which` of rank u's sums each sum less the symbol at its other place; the table has the members of the rank's class.
fn cross(
    g: Layout,
    dead: &[usize],
    u: usize,
    which: usize,
    table: &[u16],
    sums: &[u16],
    symbols: &mut [u16],
)
    requires ready { (Ready dead.now g) × (u < length dead.now) × (g.places ≤ length table.now) × (Fronted dead.now (rank_class dead.now u) g.shape.n table.now) × (which < 2) × (length sums.now ≡ message_size g.shape dead.now) × (length symbols.old ≡ size g.shape) }
    requires low { (Low narrow.modulus sums.now) × (LowAt narrow.modulus g.shape dead.now u (1 - which) symbols.old) }
    ensures { Crossed narrow g.shape dead.now u which (element sums.now) symbols.old symbols.new }
{
    let count = g.members;
    let turn = turn_of(g, dead, u);
    let near = turn * (1 - which);
    let far = turn * which;
    let block = g.batch * g.places;
    let batches = g.batches;
    // Cut by number: of what is written through `chunks_exact_mut` a proof knows the length alone.
    for b in 0..batches {
        let at = b * block;
        let end = at + block;
        let from = b * count;
        let to = from + count;
        cross_batch(
            g.top == 0,
            &table[..count],
            near,
            far,
            &sums[from..to],
            &mut symbols[at..end],
        );
    }
}

// The same by the message of rank u, of those that rank v received: "senders rising".
fn cross_from(
    g: Layout,
    dead: &[usize],
    v: usize,
    u: usize,
    which: usize,
    table: &[u16],
    received: &[u16],
    symbols: &mut [u16],
)
    requires ready { (Ready dead.now g) × (v < length dead.now) × (u < length dead.now) × (u ≡ v → ⊥) × (which < 2) × (g.places ≤ length table.now) × (Fronted dead.now (rank_class dead.now u) g.shape.n table.now) }
    requires received_len { (length received.now ≡ (length dead.now - 1) * message_size g.shape dead.now) × (length symbols.old ≡ size g.shape) }
    requires low { (Low narrow.modulus received.now) × (LowAt narrow.modulus g.shape dead.now u (1 - which) symbols.old) }
    ensures { Crossed narrow g.shape dead.now u which (sent_by g.shape dead.now v received.now u) symbols.old symbols.new }
{
    let share = g.share;
    let at = among(v, u) * share;
    let end = at + share;
    cross(g, dead, u, which, table, &received[at..end], symbols);
}

// "A node whose class in the table is c, not 0, first gets class 0 of layer 0 from its own class c and the message of rank s × (c−1)."
// Returns that rank, or h where the class is 0. The table has the members of class 0.
fn begin(
    g: Layout,
    dead: &[usize],
    v: usize,
    table: &[u16],
    received: &[u16],
    symbols: &mut [u16],
) -> usize
    requires ready { (Ready dead.now g) × (v < length dead.now) × (g.places ≤ length table.now) × (Fronted dead.now 0 g.shape.n table.now) }
    requires received_len { (length received.now ≡ (length dead.now - 1) * message_size g.shape dead.now) × (length symbols.old ≡ size g.shape) }
    requires low { (Low narrow.modulus received.now) × (OwnLow narrow.modulus g.shape dead.now v symbols.old) }
    ensures { Begun narrow g.shape dead.now v received.now symbols.old symbols.new result }
{
    let batch = g.batch;
    let class = rank_class(g, dead, v);
    if class == 0 {
        return dead.len();
    }
    let turning = batch * (class - 1);
    cross_from(g, dead, v, turning, 0, table, received, symbols);
    turning
}

// The members of class c go to a table that has those of class `held`.
fn relist(g: Layout, dead: &[usize], held: usize, c: usize, table: &mut [u16])
    requires { (Ready dead.now g) × (g.places ≤ length table.old) × (Fronted dead.now held g.shape.n table.old) }
    ensures { Fronted dead.now c g.shape.n table.new }
{
    if held == c {
        return;
    }
    list_members(g, dead, c, table);
}

// The second step of rank v in place, with a table of the members of class `held`. A rank's own class of layer 0 is there before the rank comes:
// it was filled by a lower one.
fn recover_with(
    g: Layout,
    dead: &[usize],
    v: usize,
    held: usize,
    table: &mut [u16],
    received: &[u16],
    symbols: &mut [u16],
)
    requires ready { (Ready dead.now g) × (v < length dead.now) × (g.places ≤ length table.old) × (Fronted dead.now held g.shape.n table.old) }
    requires received_len { (length received.now ≡ (length dead.now - 1) * message_size g.shape dead.now) × (length symbols.old ≡ size g.shape) }
    requires low { (Low narrow.modulus received.now) × (OwnLow narrow.modulus g.shape dead.now v symbols.old) }
    ensures { Recovers narrow g.shape dead.now v received.now symbols.old symbols.new }
{
    relist(g, dead, held, 0, table);
    let turning = begin(g, dead, v, table, received, symbols);
    let mut listed = 0;
    for u in 0..dead.len() {
        if (u == v) | (u == turning) {
            continue;
        }
        let class = rank_class(g, dead, u);
        relist(g, dead, listed, class, table);
        listed = class;
        cross_from(g, dead, v, u, 1, table, received, symbols);
    }
}

// The second step of rank v in place, where its own pairs stand already, with a lent table for members.
pub fn recover(
    g: Layout,
    dead: &[usize],
    v: usize,
    table: &mut [u16],
    received: &[u16],
    symbols: &mut [u16],
)
    requires ready { (Ready dead.now g) × (v < length dead.now) × (g.places ≤ length table.old) }
    requires received_len { (length received.now ≡ (length dead.now - 1) * message_size g.shape dead.now) × (length symbols.old ≡ size g.shape) }
    requires low { (Low narrow.modulus received.now) × (OwnLow narrow.modulus g.shape dead.now v symbols.old) }
    ensures { Recovers narrow g.shape dead.now v received.now symbols.old symbols.new }
{
    list_members(g, dead, 0, table);
    recover_with(g, dead, v, 0, table, received, symbols);
}

// The second step of rank v in place, with a table of the members of its own class. One new node alone has all its symbols from its own pairs.
fn recover_rest(
    g: Layout,
    dead: &[usize],
    v: usize,
    table: &mut [u16],
    received: &[u16],
    symbols: &mut [u16],
)
    requires ready { (Ready dead.now g) × (v < length dead.now) × (g.places ≤ length table.old) × (Fronted dead.now (rank_class dead.now v) g.shape.n table.old) }
    requires received_len { (length received.now ≡ (length dead.now - 1) * message_size g.shape dead.now) × (length symbols.old ≡ size g.shape) }
    requires low { (Low narrow.modulus received.now) × (OwnLow narrow.modulus g.shape dead.now v symbols.old) }
    ensures { Recovers narrow g.shape dead.now v received.now symbols.old symbols.new }
{
    if dead.len() == 1 {
        return;
    }
    let held = rank_class(g, dead, v);
    recover_with(g, dead, v, held, table, received, symbols);
}

// The whole second step of rank v, with a lent table for members.
fn second_with(
    g: Layout,
    dead: &[usize],
    v: usize,
    table: &mut [u16],
    pairs: &[u16],
    received: &[u16],
    symbols: &mut [u16],
)
    requires ready { (Ready dead.now g) × (v < length dead.now) × (g.places ≤ length table.old) × (length pairs.now ≡ 2 * message_size g.shape dead.now) }
    requires received_len { (length received.now ≡ (length dead.now - 1) * message_size g.shape dead.now) × (length symbols.old ≡ size g.shape) }
    requires low { (Low narrow.modulus pairs.now) × (Low narrow.modulus received.now) }
    ensures { symbols.new ≡ contents narrow g.shape dead.now v pairs.now received.now }
{
    pairs_with(g, dead, v, table, pairs, symbols);
    recover_rest(g, dead, v, table, received, symbols);
}

// The whole second step of rank v: all its symbols from its own pairs and the messages that it received.
pub fn second(
    g: Layout,
    dead: &[usize],
    v: usize,
    pairs: &[u16],
    received: &[u16],
    symbols: &mut [u16],
)
    requires ready { (Ready dead.now g) × (v < length dead.now) × (length pairs.now ≡ 2 * message_size g.shape dead.now) }
    requires received_len { (length received.now ≡ (length dead.now - 1) * message_size g.shape dead.now) × (length symbols.old ≡ size g.shape) }
    requires low { (Low narrow.modulus pairs.now) × (Low narrow.modulus received.now) }
    ensures { symbols.new ≡ contents narrow g.shape dead.now v pairs.now received.now }
{
    with_table(
        g.places,
        &mut |table| second_with(g, dead, v, table, pairs, received, symbols),
    );
}
