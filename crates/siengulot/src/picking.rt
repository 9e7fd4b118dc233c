// Picking: the best sampling count for given settings.
ghost use Rattle.std.specs.Prelude.{◌≡◌};
ghost use Rattle.settings.specs.Margins.{ends, steady};
ghost use Rattle.siengulot.specs.Picking.{PickCrosses};

use crate::answers::crosses_alone;
use crate::judging::{clocks, pair};
use measure::TimeUnits;
use settings::Clocks;

// The picker, for steady clocks. Gives in `k` the sampling count whose least margin among M1, M2 and M3 is the
// greatest, of equals the smallest. Refuses with 1 a setting out of range, and with 9 settings for which no k from 1 to
// 511 has three margins of zero or more: then `k` is 0.
pub fn siengulot_pick(a: usize, b: usize, g: usize, w: usize, r: usize, k: &mut usize) -> usize
    ensures { PickCrosses a b g (steady w r) result k.new }
{
    let pair = pair(a, b, g);
    let answer = settings::pick(pair, Clocks::steady(TimeUnits(w), TimeUnits(r)));
    crosses_alone(answer, k)
}

// The picker over the ends of two clocks. Gives in `k` the sampling count whose least margin among M1, M2 and M3, each
// over these ends, is the greatest, of equals the smallest. Refuses with 1 a setting out of range and a
// least length above its greatest, and with 9 settings for which no k from 1 to 511 has three margins of zero or more:
// then `k` is 0.
pub fn siengulot_pick_ends(
    a: usize,
    b: usize,
    g: usize,
    w1: usize,
    w2: usize,
    r1: usize,
    r2: usize,
    k: &mut usize,
) -> usize
    ensures { PickCrosses a b g (ends w1 w2 r1 r2) result k.new }
{
    let pair = pair(a, b, g);
    let clocks = clocks(w1, w2, r1, r2);
    let answer = settings::pick(pair, clocks);
    crosses_alone(answer, k)
}
