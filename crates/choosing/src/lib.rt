// Layers for a whole list of losses (document 02 §6): the smallest L that serves each, in one pass over the list.
#![tactic(auto)]

ghost use Rattle.std.specs.Prelude.{◌^◌, ◌<◌};
ghost use Rattle.shape.specs.Shape.{most_nodes};
ghost use Rattle.choosing.specs.Promises.{Chooses, Common, Needed};

use shape::{MOST_LAYERS, Refusal, Shape, batch, shape_bad, within};

// The least common multiple of l and s: the first multiple of l that is one of s.
fn common(l: usize, s: usize) -> usize
    requires { (0 < l) × (l < 2 ^ 32) × (0 < s) × (s < 2 ^ 32) }
    ensures { Common l s result }
{
    for j in 1..s {
        if (l * j) % s == 0 {
            return l * j;
        }
    }
    l * s
}

// The losses in turn, to the first that is not 1 to `most`. Layers serve a loss where they are a multiple of the layers of its batch, so the
// least common multiple of these is the number whose multiples serve them all.
fn needs_of(most: usize, losses: &[usize]) -> Result<usize, Refusal>
    requires { most < most_nodes }
    ensures { Needed most losses.now result }
{
    let mut least = 1;
    for &h in losses {
        if !within(1, most, h) {
            return Err(Refusal::BadNodes);
        }
        least = common(least, batch(h));
    }
    Ok(least)
}

// The smallest L from 1 to 15 that serves each loss; judged 1, 2, 11.
pub fn layers(n: usize, k: usize, losses: &[usize]) -> Result<usize, Refusal>
    ensures { Chooses n k losses.now result }
{
    if shape_bad(Shape { n, k, layers: 1 }) {
        return Err(Refusal::BadShape);
    }
    let least = needs_of(n - k - 1, losses)?;
    if MOST_LAYERS < least {
        return Err(Refusal::NoLayers);
    }
    Ok(least)
}
