// Layout and classes: what the shape and the dead nodes of a repair fix.
#![tactic(auto)]

ghost use Rattle.std.specs.Prelude.{◌≡◌, true, false, cond, ℕ, ◌+◌, ◌*◌, ◌/◌, ◌%◌, ◌^◌, ◌≤◌, ◌<◌, eqb, length, get_or};
ghost use Rattle.std.specs.Int.Bits.{bit_xor};
ghost use Rattle.lists.specs.Digits.{bit};
ghost use Rattle.shape.specs.Shape.{most_nodes};
ghost use Rattle.shape.specs.Refusals.{shape_bad};
ghost use Rattle.classes.specs.Classes.{batch, top, node, class_of, rank_class, partner, members};
ghost use Rattle.classes.specs.Steps.{place};
ghost use Rattle.classes.specs.Layout.{Ready, Fronted};
ghost use Rattle.lists.specs.Lists.{member, position, rising};

use shape::{MOST_NODES, Shape, batch, two_to};

// The most members of a class, those of a layer.
pub const MEMBERS: usize = 1 << MOST_NODES;

// The places of a small shape's layer: a table of MEMBERS takes as long to clear as its work.
pub const FEW: usize = 256;

// What the shape and the dead nodes fix, worked out once for each call.
#[derive(Clone, Copy)]
pub struct Layout {
    pub shape: Shape,
    // 2^n, the places of a layer.
    pub places: usize,
    // s of document 01, the layers of a batch.
    pub batch: usize,
    pub batches: usize,
    // H of document 01, the highest class.
    pub top: usize,
    // How many a are of a class: as many of each.
    pub members: usize,
    // N/(h+1), the symbols of a message.
    pub share: usize,
}

// The class so far, with v + 1 mixed in where bit i of a is set.
fn mixed(class: usize, v: usize, i: usize, a: usize) -> usize
    requires { (i < most_nodes) × (v < most_nodes) }
    ensures { result ≡ bit_xor class (cond (eqb (bit i a) 1) (v + 1) 0) }
{
    if (a >> i) % 2 == 1 {
        class ^ (v + 1)
    } else {
        class
    }
}

// "The class of a is the exclusive or of all v+1, v from 0 to H−1, where bit i_(s×v) of a is set."
fn class_of(g: Layout, dead: &[usize], a: usize) -> usize
    requires { Ready dead.now g }
    ensures { result ≡ class_of dead.now a }
{
    let batch = g.batch;
    let top = g.top;
    let mut class = 0;
    for v in 0..top {
        let node = dead[batch * v];
        class = mixed(class, v, node, a);
    }
    class
}

// The table's column "its class", of rank u. Quotient and remainder stand side by side here, and one division gives both.
pub fn rank_class(g: Layout, dead: &[usize], u: usize) -> usize
    requires { Ready dead.now g }
    ensures { result ≡ rank_class dead.now u }
{
    let batch = g.batch;
    let top = g.top;
    let row = u / batch;
    let rest = u % batch;
    if row < top {
        if rest == 0 { 0 } else { row }
    } else {
        top
    }
}

// The table's column "partner layer".
fn partner(g: Layout, dead: &[usize], u: usize) -> usize
    requires { (Ready dead.now g) × (u < length dead.now) }
    ensures { result ≡ partner dead.now u }
{
    let batch = g.batch;
    let top = g.top;
    let row = u / batch;
    let rest = u % batch;
    if row < top { rest } else { rest + 1 }
}

// What turns the first place of each sum of rank u into its other one, within a batch: the bit of node i_u, and above the bits of a the
// partner layer.
pub fn turn_of(g: Layout, dead: &[usize], u: usize) -> usize
    requires { (Ready dead.now g) × (u < length dead.now) }
    ensures { result ≡ partner dead.now u * 2 ^ g.shape.n + 2 ^ node dead.now u }
{
    let places = g.places;
    let node = dead[u];
    partner(g, dead, u) * places + two_to(node)
}

// What a repair works with, once its causes 1 to 3 are judged: N/(h+1) is worked out here and not before.
pub fn laid_out(s: Shape, dead: &[usize]) -> Layout
    requires { (shape_bad s ≡ false) × (rising 0 s.n dead.now ≡ true) × (1 ≤ length dead.now) × (length dead.now < s.n) × (s.layers % batch dead.now ≡ 0) }
    ensures { (result.shape ≡ s) × (Ready dead.now result) }
{
    let n = s.n;
    let layers = s.layers;
    let h = dead.len();
    let batch = batch(h);
    let places = two_to(n);
    let batches = layers / batch;
    let classes = (h + 1) / batch;
    let members = places / classes;
    Layout {
        shape: s,
        places,
        batch,
        batches,
        top: classes - 1,
        members,
        share: batches * members,
    }
}

// How many a are of a class.
pub fn class_size(g: Layout, dead: &[usize]) -> usize
    requires { Ready dead.now g }
    ensures { (c : ℕ) → c ≤ top dead.now → result ≡ length (members dead.now c (2 ^ g.shape.n)) }
{
    g.members
}

// Runs `work` with a table at least as long as a layer has places. A small shape's is short: it is cleared sooner.
pub fn with_table<F: FnMut(&mut [u16])>(places: usize, work: &mut F)
    requires fits { places ≤ 2 ^ most_nodes }
    requires callable { (table : _) → places ≤ length table.now → F.pre work.old table }
    ensures { (table : _) × (left : _) × (places ≤ length table.now) × F.step work.old table tt left work.new }
{
    if places <= FEW {
        let mut few = [0u16; FEW];
        work(&mut few);
    } else {
        let mut table = [0u16; MEMBERS];
        work(&mut table);
    }
}

// Every a of a layer, rising, in the front of a table.
fn list_all(places: usize, out: &mut [u16])
    requires { (places ≤ length out.old) × (places ≤ 2 ^ most_nodes) }
    ensures { (x : ℕ) → x < places → get_or out.new x 0 ≡ x }
{
    for (a, x) in out[..places].iter_mut().enumerate() {
        *x = a as u16;
    }
}

// The a of class c, rising, in the front of a table. What is written at x is written over where its a is not of the class.
pub fn list_members(g: Layout, dead: &[usize], c: usize, out: &mut [u16])
    requires { (Ready dead.now g) × (g.places ≤ length out.old) }
    ensures { Fronted dead.now c g.shape.n out.new }
{
    let places = g.places;
    if (g.top == 0) & (c == 0) {
        list_all(places, out);
        return;
    }
    let mut x = 0;
    for a in 0..places {
        out[x] = a as u16;
        x += (class_of(g, dead, a) == c) as usize;
    }
}

// The rank of a dead node: its position in the list.
pub fn rank_of(g: Layout, dead: &[usize], new: usize) -> usize
    requires { (Ready dead.now g) × (member new dead.now ≡ true) }
    ensures { (result < length dead.now) × (result ≡ position new dead.now) }
{
    dead.iter().position(|&node| new == node).unwrap_or(0)
}

// Where rank v stands among the ranks but u.
pub fn among(u: usize, v: usize) -> usize
    requires { v ≡ u → ⊥ }
    ensures { result ≡ place u v }
{
    if v < u { v } else { v - 1 }
}
