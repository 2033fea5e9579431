// The inverses of a row of numbers modulo a prime, by one power.
#![tactic(auto)]

ghost use Rattle.std.specs.Prelude.{◌≡◌, ℕ, ◌*◌, ◌%◌, ◌<◌, ◌≤◌, length};
ghost use Rattle.lists.specs.Lists.{element};
ghost use Rattle.inverting.specs.Inverses.{Pivots, Products, Inverted};

use field::{inverse, multiply};

// The product of the elements in front of each element of a row; that of all is returned.
fn products(q: u32, row: &[u32], out: &mut [u32]) -> u32
    requires { (1 < q) × (length out.old ≡ length row.now) }
    ensures { Products q row.now (length row.now) out.old out.new result }
{
    let mut all = 1;
    for (i, &x) in row.iter().enumerate() {
        out[i] = all;
        all = multiply(q, all, x);
    }
    all
}

// The inverses of a row's elements, by one power: that of all elements' product, times the later elements, times the product of those before.
pub fn invert(q: u32, row: &[u32], out: &mut [u32])
    requires { (1 < q) × (length out.old ≡ length row.now) }
    ensures { Inverted q row.now 0 out.new }
{
    let mut rest = inverse(q, products(q, row, out));
    for i in (0..row.len()).rev() {
        out[i] = multiply(q, rest, out[i]);
        rest = multiply(q, rest, row[i]);
    }
}

// The inverses of the first r elements of an array, and zeros behind them.
pub fn inverted<const N: usize>(q: u32, r: usize, row: &[u32; N]) -> [u32; N]
    requires { (1 < q) × (r ≤ length row.now) }
    ensures { (length result ≡ length row.now) × ((e : ℕ) → element result e < q) × (Pivots q r (element row.now) → (i : ℕ) → i < r → (element row.now i * element result i) % q ≡ 1) }
{
    let mut out = [0u32; N];
    invert(q, &row[..r], &mut out[..r]);
    out
}
