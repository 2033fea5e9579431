// Finishing a first step (document 02 §8): at each sum the kept known sides of the r equations are solved for the r unknowns, and these are
// the own pairs and the outgoing messages.
#![tactic(auto)]

ghost use Rattle.std.specs.Prelude.{◌≡◌, true, ℕ, ◌+◌, ◌-◌, ◌*◌, ◌≤◌, ◌<◌, length, get_or};
ghost use Rattle.lists.specs.Lists.{element, rising};
ghost use Rattle.field.specs.Residues.{minus};
ghost use Rattle.column.specs.Solving.{most_entries};
ghost use Rattle.shape.specs.Shape.{most_nodes};
ghost use Rattle.code.specs.Code.{narrow, more_points};
ghost use Rattle.rows.specs.Rows.{Low};
ghost use Rattle.classes.specs.Classes.{node, message_size};
ghost use Rattle.classes.specs.Layout.{Ready};
ghost use Rattle.arrival.specs.Promises.{Finishes};
ghost use Rattle.finishing.specs.Steps.{Asked, Answered, SentAt, PairAt, Finishable, Finished};

use arrival::judge_finish;
use classes::{Layout, laid_out, list_members, rank_class, rank_of, with_table};
use code::point;
use column::{ENTRIES, solve};
use completion::{others, scatter, vandermonde};
use field::subtract;
use shape::{MODULUS, Refusal, Shape};
use transfers::other_rank;

// The point of an entry of a column of n + 1 at a: a node's own, and behind them the opposite of node i's.
fn entry_point(n: usize, a: usize, i: usize, entry: usize) -> u32
    requires { (n ≤ most_nodes) × (i < n) × (entry < n + 1) }
    ensures { result ≡ get_or (more_points narrow n a i) entry 0 }
{
    if entry < n {
        return point(a, entry);
    }
    MODULUS - point(a, i)
}

// The points of the unknown entries at a.
fn unknown_points(n: usize, a: usize, i: usize, unknown: &[usize]) -> [u32; ENTRIES]
    requires { (n ≤ most_nodes) × (i < n) × (rising 0 (n + 1) unknown.now ≡ true) }
    ensures { (j : ℕ) → j < length unknown.now → element result j ≡ get_or (more_points narrow n a i) (element unknown.now j) 0 }
{
    let mut out = [0u32; ENTRIES];
    for (j, point) in out[..unknown.len()].iter_mut().enumerate() {
        *point = entry_point(n, a, i, unknown[j]);
    }
    out
}

// The right sides of r equations whose known sides are kept from a place on: what these lack to 0.
fn right_sides(r: usize, at: usize, sums: &[u16]) -> [u32; ENTRIES]
    requires { (r ≤ most_entries) × (at + r ≤ length sums.now) }
    ensures { (t : ℕ) → t < r → element result t ≡ minus narrow.modulus 0 (get_or sums.now (at + t) 0) }
{
    let mut out = [0u32; ENTRIES];
    for (t, side) in out[..r].iter_mut().enumerate() {
        *side = subtract(MODULUS, 0, u32::from(sums[at + t]));
    }
    out
}

// A column of n + 1 entries at a with the unknown ones worked out: as many equations as unknowns, solved.
fn answer(
    n: usize,
    a: usize,
    i: usize,
    unknown: &[usize],
    at: usize,
    sums: &[u16],
) -> [u32; ENTRIES]
    requires { Asked n i unknown.now at (length sums.now) }
    ensures { Answered n a i unknown.now at sums.now result }
{
    let r = unknown.len();
    let right = right_sides(r, at, sums);
    let points = unknown_points(n, a, i, unknown);
    let found = solve(MODULUS, r, vandermonde(MODULUS, r, points), right);
    let mut column = [0u32; ENTRIES];
    scatter(unknown, &found[..r], &mut column);
    column
}

// The own symbols of a column, as pair x.
fn put_pair(i: usize, n: usize, x: usize, column: [u32; ENTRIES], pairs: &mut [u16])
    requires { (i ≤ n) × (n ≤ most_nodes) × (length column ≡ most_entries) × Low narrow.modulus column × (x * 2 + 1 < length pairs.old) }
    ensures { PairAt i n x column pairs.old pairs.new }
{
    pairs[x * 2] = column[i] as u16;
    pairs[x * 2 + 1] = column[n] as u16;
}

// The other dead nodes' symbols of a column, as symbol x of the messages to them.
fn send_sum(g: Layout, dead: &[usize], u: usize, x: usize, column: [u32; ENTRIES], out: &mut [u16])
    requires { Ready dead.now g × (u < length dead.now) × (x < message_size g.shape dead.now) × (length column ≡ most_entries) × Low narrow.modulus column × (length out.old ≡ (length dead.now - 1) * message_size g.shape dead.now) }
    ensures { SentAt dead.now u (message_size g.shape dead.now) x (length dead.now - 1) column out.old out.new }
{
    let share = g.share;
    let others = dead.len() - 1;
    for j in 0..others {
        let node = dead[other_rank(u, j)];
        out[j * share + x] = column[node] as u16;
    }
}

// Every sum of rank u finished; the members of the rank's class go to a lent table.
fn finish_with(
    g: Layout,
    dead: &[usize],
    helpers: &[usize],
    u: usize,
    class: &mut [u16],
    sums: &[u16],
    pairs: &mut [u16],
    out: &mut [u16],
)
    requires { Finishable dead.now helpers.now g u sums.now pairs.old out.old × (g.places ≤ length class.old) }
    ensures { Finished g.shape dead.now helpers.now u sums.now pairs.new out.new }
{
    let s = g.shape;
    let n = s.n;
    let r = n - s.k;
    let i = dead[u];
    list_members(g, dead, rank_class(g, dead, u), class);
    let unknown = others(n + 1, helpers);
    for x in 0..g.share {
        let a = usize::from(class[x % g.members]);
        let column = answer(n, a, i, &unknown[..r], x * r, sums);
        put_pair(i, n, x, column, pairs);
        send_sum(g, dead, u, x, column, out);
    }
}

// The same, with a table of its own.
fn finish_into(
    g: Layout,
    dead: &[usize],
    helpers: &[usize],
    u: usize,
    sums: &[u16],
    pairs: &mut [u16],
    out: &mut [u16],
)
    requires { Finishable dead.now helpers.now g u sums.now pairs.old out.old }
    ensures { Finished g.shape dead.now helpers.now u sums.now pairs.new out.new }
{
    with_table(
        g.places,
        &mut |class| finish_with(g, dead, helpers, u, class, sums, pairs, out),
    );
}

// Finishes the first step of a new node: its own pairs, and its message to each other new node, from the sums it kept.
pub fn finish(
    s: Shape,
    dead: &[usize],
    helpers: &[usize],
    new: usize,
    sums: &[u16],
    heard: &[usize],
    pairs: &mut [u16],
    out: &mut [u16],
) -> Result<(), Refusal>
    ensures { Finishes s dead.now helpers.now new sums.now heard.now pairs.old pairs.new out.old out.new result }
{
    judge_finish(s, dead, helpers, new, sums, heard, pairs.len(), out.len())?;
    let g = laid_out(s, dead);
    let u = rank_of(g, dead, new);
    finish_into(g, dead, helpers, u, sums, pairs, out);
    Ok(())
}
