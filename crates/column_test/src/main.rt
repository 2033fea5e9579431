// Columns of every size from 3 entries to the most, modulo 257 and 65537, completed from some of their entries. Prints a line for each modulus and size:
// the modulus, the size and a digest of every completed column. tests/column_expected.py works the same lines out by another way.
#![tactic(auto)]

ghost use Rattle.std.specs.Prelude.{◌≡◌, ◌+◌, ◌*◌, ◌-◌, ◌≤◌, ◌<◌, length};
ghost use Rattle.lists.specs.Lists.{tabulate};
ghost use Rattle.field.specs.Residues.{Prime};
ghost use Rattle.column.specs.Solving.{most_entries};
ghost use Rattle.column_test.specs.Progression.{stepped};

use column::ENTRIES;
use std::io;

// The columns of each size.
const CASES: usize = 60;

// The steps from the first point to the last.
const STEPS: u32 = ENTRIES as u32 - 1;

// The next seed.
fn next(seed: u64) -> u64
    ensures { result < 2147483648 }
{
    (seed % 2147483648 * 1103515245 + 12345) % 2147483648
}

// The distance between points, small enough for all of them to be below 257.
fn step_of(seed: u64) -> u32
    ensures { (0 < result) × (result ≤ 18) }
{
    (1 + seed / 16 % 18) as u32
}

// The first of as many points as a column has at most, all below q.
fn base_of(q: u32, step: u32, seed: u64) -> u32
    requires { (257 ≤ q) × (0 < step) × (step ≤ 18) × (seed < 2147483648) }
    ensures { result + (most_entries - 1) * step < q }
{
    (seed / 4096) as u32 % (q - STEPS * step)
}

// Points that differ: base, base + step, base + 2 × step, ..
fn progression(base: u32, step: u32, points: &mut [u32])
    requires { (base < 65537) × (step ≤ 18) × (length points.old ≤ most_entries) }
    ensures { points.new ≡ tabulate (length points.old) (stepped base step) }
{
    for (i, point) in points.iter_mut().enumerate() {
        *point = base + (i as u32) * step;
    }
}

// The entries whose binary digit of the seed is 0; how many there are.
fn choose(seed: u64, list: &mut [usize]) -> usize
    requires { (seed < 2147483648) × (length list.old ≤ most_entries) }
    ensures { (result ≤ length list.old) × (length list.new ≡ length list.old) }
{
    let mut count = 0;
    for i in 0..list.len() {
        if (seed >> (8 + i)) % 2 == 0 {
            list[count] = i;
            count += 1;
        }
    }
    count
}

// Values below q.
fn draw(q: u32, start: u64, values: &mut [u32])
    requires { 0 < q }
    ensures { length values.new ≡ length values.old }
{
    let mut seed = start;
    for value in values.iter_mut() {
        seed = next(seed);
        *value = field::add(q, (seed / 16) as u32, 0);
    }
}

// The digest with the entries of a column taken in.
fn digested(start: u64, column: &[u32]) -> u64
    requires { start < 4294967291 }
    ensures { result < 4294967291 }
{
    let mut digest = start;
    for &x in column {
        digest = (digest * 65599 + u64::from(x) + 1) % 4294967291;
    }
    digest
}

// The digest with the column taken in that has these values at the listed entries.
fn completed(
    q: u32,
    base: u32,
    step: u32,
    points: &[u32],
    list: &[usize],
    values: &[u32],
    column: &mut [u32],
    digest: u64,
) -> u64
    requires prime { Prime q × (0 < step) × (base + (most_entries - 1) * step < q) × (digest < 4294967291) }
    requires points_len_bound { (length points.now ≤ most_entries) × (points.now ≡ tabulate (length points.now) (stepped base step)) }
    requires values_len { (length values.now ≡ length list.now) × (length column.old ≡ length points.now) }
    ensures { result < 4294967291 }
{
    if shape::nodes_bad(points.len(), list.len(), list) {
        return 0;
    }
    completion::complete(q, points, list, values, column);
    digested(digest, column)
}

// One column: its points, its listed entries and their values come from a seed.
fn run(
    q: u32,
    seed: u64,
    points: &mut [u32],
    list: &mut [usize],
    values: &mut [u32],
    column: &mut [u32],
    digest: u64,
) -> u64
    requires prime { Prime q × (257 ≤ q) × (q ≤ 65537) × (seed < 2147483648) × (digest < 4294967291) }
    requires points_len_bound { (length points.old ≤ most_entries) × (length list.old ≡ length points.old) × (length values.old ≡ length points.old) × (length column.old ≡ length points.old) }
    ensures { result < 4294967291 }
{
    let step = step_of(seed);
    let base = base_of(q, step, seed);
    progression(base, step, points);
    let count = choose(seed, list);
    draw(q, seed, values);
    completed(
        q,
        base,
        step,
        points,
        &list[..count],
        &values[..count],
        column,
        digest,
    )
}

// One column of m entries.
fn run_size(q: u32, seed: u64, m: usize, digest: u64) -> u64
    requires { Prime q × (257 ≤ q) × (q ≤ 65537) × (seed < 2147483648) × (m ≤ most_entries) × (digest < 4294967291) }
    ensures { result < 4294967291 }
{
    let mut points = [0u32; ENTRIES];
    let mut list = [0usize; ENTRIES];
    let mut values = [0u32; ENTRIES];
    let mut column = [0u32; ENTRIES];
    run(
        q,
        seed,
        &mut points[..m],
        &mut list[..m],
        &mut values[..m],
        &mut column[..m],
        digest,
    )
}

// The digest of all columns of m entries.
fn size_digest(q: u32, m: usize) -> u64
    requires { Prime q × (257 ≤ q) × (q ≤ 65537) × (m ≤ most_entries) }
{
    let mut seed = next(m as u64);
    let mut digest = 0;
    for _ in 0..CASES {
        digest = run_size(q, seed, m, digest);
        seed = next(next(seed));
    }
    digest
}

// The lines of one modulus.
fn print_sizes(rt: &impl Print, q: u32) -> io::Result<()>
    requires { Prime q × (257 ≤ q) × (q ≤ 65537) }
{
    for m in 3..ENTRIES + 1 {
        let digest = size_digest(q, m);
        println!(rt; "{q} {m} {digest}")?;
    }
    Ok(())
}

fn main(rt: HostRuntime) -> io::Result<()> {
    print_sizes(&rt, 257)?;
    print_sizes(&rt, 65537)
}
