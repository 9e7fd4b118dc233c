// The line model: the three passes that a wave goes through before it is read, each over bytes: 0 low, 1 high, 2
// unknown.
#![tactic(auto)]

mod smoothing;
mod steady;
mod wander;

ghost use Rattle.std.specs.Prelude.{◌≡◌, true, ◌+◌, ◌≤◌, length, drop};
ghost use Rattle.measure.specs.Lists.{onto};
ghost use Rattle.measure.specs.Ranges.{entries_most};
ghost use Rattle.line.specs.Warp.{reconcile as agree};
ghost use Rattle.line.specs.Settle.{next_choice, settle as settling};
ghost use Rattle.line.specs.Sharing.{read_count};
ghost use Rattle.line.specs.Answers.{smoothed, timed, warped, settled, smoothed_says, read_says};

use measure::{
    CYCLE_LEAST, CYCLE_MOST, ENTRIES_MOST, HIGH, ReadCycles, Refusal, SETTLING_LEAST,
    SETTLING_MOST, TimeUnits, UNKNOWN, WriterCycles,
};
pub use wander::{Bounds, warp_by_lengths};

// The choice where none is left.
const LOW: u8 = 0;

// The level that two cycles have, and unknown where they differ.
fn agreed(one: u8, other: u8) -> u8
    ensures { agree one other ≡ result }
{
    if one == other { one } else { UNKNOWN }
}

// Pass 1, smooth. Gives the wave, in which a cycle is unknown if the level changes at it or at one of the g - 1 cycles
// before it; the line was high before the first.
// Refuses with 1 a g out of range, with 3 a wave over its limit, with 2 an entry that is no level, and its place, and
// with 4 an output shorter than the wave.
// The output's front holds the smoothed wave, and its rest is untouched; a refusal leaves it whole as it was.
#[tactic(auto, using(crate::proofs::SmoothLaws::length_smooth), unfolding(crate::specs::Answers::smoothed))]
pub fn smooth(wave: &[u8], g: WriterCycles, out: &mut [u8]) -> Result<WriterCycles, Refusal>
    ensures { smoothed g.0 wave.now out.old ≡ (smoothed_says result, out.new) }
{
    let settling = g.0;
    if !measure::between(SETTLING_LEAST, SETTLING_MOST, settling) {
        return Err(Refusal::Setting(0));
    }
    if ENTRIES_MOST < wave.len() {
        return Err(Refusal::Limit);
    }
    measure::check_entries(wave, HIGH)?;
    if out.len() < wave.len() {
        return Err(Refusal::Room);
    }
    smoothing::smooth_into(wave, settling, out);
    Ok(WriterCycles(wave.len()))
}

// How long the cycles of a line with steady clocks last, w, and its reads, r, and when the first read starts, p.
#[derive(Clone, Copy)]
pub struct Timing {
    pub w: TimeUnits,
    pub r: TimeUnits,
    pub p: TimeUnits,
}

impl Timing {
    // Tells whether w and r are in range and p is below w.
    fn fits(self) -> bool
        ensures { timed self.w.0 self.r.0 self.p.0 ≡ result }
    {
        measure::between(CYCLE_LEAST, CYCLE_MOST, self.w.0)
            & measure::between(CYCLE_LEAST, CYCLE_MOST, self.r.0)
            & (self.p.0 < self.w.0)
    }

    // The number of reads of so many cycles: every whole read that fits after the phase.
    fn count(self, cycles: WriterCycles) -> ReadCycles
        requires { (timed self.w.0 self.r.0 self.p.0 ≡ true) × (cycles.0 ≤ entries_most) }
        ensures { read_count self.w.0 self.r.0 self.p.0 cycles.0 ≡ result.0 }
    {
        let all = cycles.0;
        if all == 0 {
            return ReadCycles(0);
        }
        let end = all * self.w.0;
        let span = end - self.p.0;
        let reads = span / self.r.0;
        ReadCycles(reads)
    }
}

// Pass 2, warp. Gives the reads of a wave whose cycles are w long, by a reader whose reads are r long and start at p.
// Refuses with 1 times out of range and a p that is not below w, with 3 a wave over its limit and one whose reads would
// be, with 2 an entry that is no level and not unknown, and its place, and with 4 an output shorter than the reads.
// The output's front holds the reads, and its rest is untouched; a refusal leaves it whole as it was.
#[tactic(auto, using(crate::proofs::Counted::timed_count), unfolding(crate::specs::Answers::warped))]
pub fn warp(wave: &[u8], timing: Timing, out: &mut [u8]) -> Result<ReadCycles, Refusal>
    ensures { warped timing.w.0 timing.r.0 timing.p.0 wave.now out.old
        ≡ (read_says result, out.new) }
{
    if !timing.fits() {
        return Err(Refusal::Setting(0));
    }
    if ENTRIES_MOST < wave.len() {
        return Err(Refusal::Limit);
    }
    let n = timing.count(WriterCycles(wave.len()));
    if ENTRIES_MOST < n.0 {
        return Err(Refusal::Limit);
    }
    measure::check_entries(wave, UNKNOWN)?;
    if out.len() < n.0 {
        return Err(Refusal::Room);
    }
    steady::warp_into(wave, timing, n, out);
    Ok(n)
}

// One store for both kinds of read, so that the loop has one way round.
fn settle_into(reads: &[u8], choices: &[u8], out: &mut [u8])
    requires { length reads.now ≤ length out.old }
    ensures { onto (settling reads.now choices.now) out.old
        ≡ out.new }
{
    let mut left = choices.iter();
    for (i, read) in reads.iter().enumerate() {
        let mut level = *read;
        if level == UNKNOWN {
            level = left.next().copied().unwrap_or(LOW);
        }
        out[i] = level;
    }
}

// Pass 3, settle. Gives the reads with each unknown one made the next choice, or low where none is left.
// Refuses with 3 reads or choices over their limit, with 2 a read that is no level and not unknown, and then a choice
// that is no level, and its place in its own list, and with 4 an output shorter than the reads.
// The output's front holds the settled reads, and its rest is untouched; a refusal leaves it whole as it was.
#[tactic(auto, using(crate::proofs::SettleLaws::length_settle), unfolding(crate::specs::Answers::settled))]
pub fn settle(reads: &[u8], choices: &[u8], out: &mut [u8]) -> Result<ReadCycles, Refusal>
    ensures { settled reads.now choices.now out.old
        ≡ (read_says result, out.new) }
{
    if ENTRIES_MOST < reads.len() {
        return Err(Refusal::Limit);
    }
    if ENTRIES_MOST < choices.len() {
        return Err(Refusal::Limit);
    }
    measure::check_entries(reads, UNKNOWN)?;
    measure::check_entries(choices, HIGH)?;
    if out.len() < reads.len() {
        return Err(Refusal::Room);
    }
    settle_into(reads, choices, out);
    Ok(ReadCycles(reads.len()))
}
