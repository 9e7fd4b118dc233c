// Picking the sampling count whose least margin is the greatest.
ghost use Rattle.std.specs.Prelude.{◌≡◌, true, ◌+◌, ◌-◌, ◌/◌, ◌<◌, ◌≤◌, min};
ghost use Rattle.measure.specs.Choose.{choose};
ghost use Rattle.measure.specs.Ranges.{sampling};
ghost use Rattle.measure.specs.Refusals.{given, refused};
ghost use Rattle.settings.specs.Margins.{ends_of, m1, m2, zero_or_more};
ghost use Rattle.settings.specs.Pick.{least, Picks, picked_says};
ghost use Rattle.settings.specs.Turning.{Turning};

use crate::checked::Settings;
use crate::{Clocks, Pair};
use measure::{ReadCycles, Refusal, SAMPLING_LEAST, SAMPLING_MOST};

// Gives how many steps of k from the least on M2 stays below M1 and M3, at most as many as lead to the last k but one.
// M2 starts `gap1` below M1 and `gap3` below M3; with each step it gains `gain`, and M3 loses `loss`.
fn steps_below(gap1: usize, gap3: usize, gain: usize, loss: usize) -> usize
    requires { (0 < gap1) × (0 < gap3) × (0 < gain) × (gain ≤ 65535) × (loss ≤ 65535) }
    ensures { result ≡ min (min ((gap1 - 1) / gain) ((gap3 - 1) / (gain + loss))) 509 }
{
    let to_m1 = (gap1 - 1) / gain;
    let to_m3 = (gap3 - 1) / (gain + loss);
    to_m1.min(to_m3).min(SAMPLING_MOST - SAMPLING_LEAST - 1)
}

// Gives the last k at which M2 is below M1 and M3, or the last k but one. Up to there M2 is the least of the three, and
// rises; after the next k the least rises no more. So the best is this k or the next.
#[tactic(auto, using(crate::proofs::InRange::starts))]
fn turning(settings: Settings) -> usize
    requires { zero_or_more (m1 settings.pair.a.0 settings.pair.g.0 (ends_of settings.clocks)) ≡ true }
    ensures { Turning settings.pair.a.0 settings.pair.b.0 settings.pair.g.0 result (ends_of settings.clocks) }
{
    let mark = settings.pair.a.0;
    let code = settings.pair.b.0;
    let settling = settings.pair.g.0;
    let short_cycle = settings.clocks.w1.0;
    let long_cycle = settings.clocks.w2.0;
    let short_read = settings.clocks.r1.0;
    let long_read = settings.clocks.r2.0;
    // With k 1, M2 is minus a + g writer cycles: so far below M1, and so far below M3.
    let below_zero = (mark + settling) * long_cycle;
    let gap1 = (mark - settling) * short_cycle - 2 * long_read + below_zero;
    let gap3 = gap1 + code * short_cycle - long_read;
    SAMPLING_LEAST + steps_below(gap1, gap3, short_read, long_read)
}

// Gives M2 of a sampling count.
#[tactic(auto, using(crate::proofs::Signs::read_back))]
fn second_margin(settings: Settings, k: ReadCycles) -> i64
    requires { sampling k.0 ≡ true }
    ensures { result ≡ m2 settings.pair.a.0 settings.pair.g.0 k.0 (ends_of settings.clocks) }
{
    let at = Settings {
        pair: settings.pair,
        k,
        clocks: settings.clocks,
    };
    at.m2()
}

// Gives the least margin of a sampling count.
#[tactic(auto, using(crate::proofs::Signs::read_back), unfolding(crate::specs::Pick::least))]
fn least_margin(settings: Settings, k: ReadCycles) -> i64
    requires { sampling k.0 ≡ true }
    ensures { result ≡ least settings.pair.a.0 settings.pair.b.0 settings.pair.g.0 k.0 (ends_of settings.clocks) }
{
    let at = Settings {
        pair: settings.pair,
        k,
        clocks: settings.clocks,
    };
    at.margins().least()
}

// Gives the best sampling count, unless its least margin is negative: then no other has three of zero or more.
fn offered(k: ReadCycles, margin: i64) -> Result<ReadCycles, Refusal>
    ensures { choose (zero_or_more margin) (given k.0) (refused 9 0) ≡ picked_says result }
{
    if margin < 0 {
        return Err(Refusal::NoCount);
    }
    Ok(k)
}

// The picker. Gives the sampling count whose least margin among M1, M2 and M3, each over the ends of two clocks, is the
// greatest, of equals the smallest. Refuses with 1 a setting out of range and a least length above its greatest, and
// with 9 settings for which no sampling count has three margins of zero or more.
// Always inlined, since of steady clocks each length is then tested once.
#[inline(always)]
pub fn pick(pair: Pair, clocks: Clocks) -> Result<ReadCycles, Refusal>
    ensures { Picks pair.a.0 pair.b.0 pair.g.0 (ends_of clocks) (picked_says result) }
{
    let lowest = ReadCycles(SAMPLING_LEAST);
    let settings = Settings::checked(pair, lowest, clocks)?;
    // M1 is the same for every k.
    if settings.m1() < 0 {
        return Err(Refusal::NoCount);
    }
    let last = turning(settings);
    let next = last + 1;
    let here = second_margin(settings, ReadCycles(last));
    let there = least_margin(settings, ReadCycles(next));
    if here < there {
        return offered(ReadCycles(next), there);
    }
    offered(ReadCycles(last), here)
}
