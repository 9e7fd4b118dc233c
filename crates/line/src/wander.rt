// Warp by lengths: clocks that wander, each writer cycle and each read with a length of its own. Lists of lengths are
// plain numbers, all of them time units.
ghost use Rattle.std.specs.Prelude.{◌≡◌, true, ◌<◌, ◌≤◌, length, take};
ghost use Rattle.measure.specs.Lists.{onto};
ghost use Rattle.line.specs.Warp.{warp_by};
ghost use Rattle.line.specs.Running.{clock_of, Lengths, EndBy, Sees, Counts};
ghost use Rattle.line.specs.Answers.{bounds_fit, all_between, phase_fits, lengths_fit};
ghost use Rattle.line.specs.Answers.{read_says, warped_by_lengths};

use crate::agreed;
use crate::steady::Looking;
use measure::{
    CYCLE_LEAST, CYCLE_MOST, ENTRIES_MOST, ReadCycles, Refusal, TimeUnits, UNKNOWN, WriterCycles,
};

// The least and the greatest that some lengths may be.
#[derive(Clone, Copy)]
pub struct Bounds {
    pub least: TimeUnits,
    pub most: TimeUnits,
}

impl Bounds {
    // Tells whether both are in range and in order.
    fn fit(self) -> bool
        ensures { bounds_fit self.least.0 self.most.0 ≡ result }
    {
        measure::between(CYCLE_LEAST, CYCLE_MOST, self.least.0)
            & measure::between(CYCLE_LEAST, CYCLE_MOST, self.most.0)
            & (self.least.0 <= self.most.0)
    }

    // Tells whether each length of a list keeps to them.
    fn hold(self, lengths: &[usize]) -> bool
        ensures { all_between self.least.0 self.most.0 lengths.now ≡ result }
    {
        lengths.iter().all(|length| measure::between(self.least.0, self.most.0, *length))
    }
}

// Tells whether p is below the first writer cycle's length. Where there is none, p is not asked about.
fn phase_fits(p: TimeUnits, cycles: &[usize]) -> bool
    ensures { phase_fits p.0 cycles.now ≡ result }
{
    cycles.first().is_none_or(|first| p.0 < *first)
}

// Tells whether the bounds of both lengths are in range and in order, each length keeps to its bounds, and p is below
// the first writer cycle's length.
fn lengths_fit(w: Bounds, r: Bounds, p: TimeUnits, cycles: &[usize], reads: &[usize]) -> bool
    ensures { lengths_fit w.least.0 w.most.0 r.least.0 r.most.0 p.0 cycles.now reads.now
        ≡ result }
{
    w.fit() & r.fit() & w.hold(cycles) & r.hold(reads) & phase_fits(p, cycles)
}

// The number of cycles that have both a level and a length.
fn cycles_with_both(wave: &[u8], cycles: &[usize]) -> WriterCycles
    ensures { length (take (length cycles.now) wave.now) ≡ result.0 }
{
    WriterCycles(wave.len().min(cycles.len()))
}

// Reads that start at p and last as their lengths say, which have been judged.
#[derive(Clone, Copy)]
struct Reads<'a> {
    lengths: &'a [usize],
    p: TimeUnits,
    ghost judged: { Lengths lengths.now },
}

// A wave whose cycles last as their lengths say, which have been judged.
#[derive(Clone, Copy)]
struct Wandering<'a> {
    wave: &'a [u8],
    cycles: &'a [usize],
    ghost judged: { Lengths cycles.now },
    ghost lasting: { length wave.now ≤ length cycles.now },
}

impl<'a> Reads<'a> {
    // The number of reads that have a length and end by `end`.
    fn count_by(self, end: TimeUnits) -> ReadCycles
        requires { self.p.0 ≤ 65535 }
        ensures { EndBy (clock_of 1 self.entry.p.0 self.entry.lengths.now) (length self.entry.lengths.now) end.0
            result.0 }
    {
        let mut t = self.p.0;
        for (j, length) in self.lengths.iter().enumerate() {
            t += *length;
            if end.0 < t {
                return ReadCycles(j);
            }
        }
        ReadCycles(self.lengths.len())
    }
}

impl<'a> Wandering<'a> {
    // When the last cycle is over.
    fn end(self) -> TimeUnits
        ensures { clock_of 1 0 self.entry.cycles.now (length self.entry.wave.now) ≡ result.0 }
    {
        TimeUnits(self.cycles[..self.wave.len()].iter().sum())
    }

    // The number of reads: those that have a length and end by the end of the last cycle.
    fn count(self, reads: Reads<'a>) -> ReadCycles
        requires { phase_fits reads.p.0 self.cycles.now ≡ true }
        ensures { Counts (length self.entry.wave.now) reads.entry.p.0 self.entry.cycles.now reads.entry.lengths.now
            result.0 }
    {
        if self.wave.len() == 0 {
            return ReadCycles(0);
        }
        reads.count_by(self.end())
    }

    // One read, which ends at `t`: it looks at the cycles left over, one after another, of which the first starts at
    // `start`. What ends the loop is a time, and no place that a range could name.
    fn look_along(self, first: WriterCycles, start: TimeUnits, t: TimeUnits) -> Looking
        requires { (clock_of 1 0 self.cycles.now first.0 ≡ start.0) × (start.0 < t.0)
            × (t.0 ≤ clock_of 1 0 self.cycles.now (length self.wave.now)) }
        ensures { Sees (clock_of 1 0 self.entry.cycles.now) t.0 first.0 self.entry.wave.now result }
    {
        let until = t.0;
        let i = first.0;
        let mut level = self.wave[i];
        let mut begun = start.0;
        let mut over = begun + self.cycles[i];
        let mut next = i + 1;
        while over < until {
            level = agreed(level, self.wave[next]);
            begun = over;
            over = begun + self.cycles[next];
            next += 1;
        }
        if over == until {
            return Looking {
                level,
                next: WriterCycles(next),
                start: TimeUnits(over),
            };
        }
        Looking {
            level,
            next: WriterCycles(next - 1),
            start: TimeUnits(begun),
        }
    }

    // Writes the reads one after another. The end of the current read and the start of the first cycle left are carried
    // along. A loop of its own: with steady clocks no list says how long reads last, and ends are carried, not starts.
    fn warp_along(self, reads: Reads<'a>, n: ReadCycles, out: &mut [u8])
        requires { (reads.p.0 < clock_of 1 0 self.cycles.now 1)
            × EndBy (clock_of 1 reads.p.0 reads.lengths.now) (length reads.lengths.now)
            (clock_of 1 0 self.cycles.now (length self.wave.now)) n.0
            × (n.0 ≤ length out.old) }
        ensures { onto (take n.0
            (warp_by (clock_of 1 0 self.entry.cycles.now) (clock_of 1 reads.entry.p.0 reads.entry.lengths.now)
            self.entry.wave.now))
            out.old ≡ out.new }
    {
        let mut t = reads.p.0;
        let mut first = WriterCycles(0);
        let mut start = TimeUnits(0);
        for (j, length) in reads.lengths[..n.0].iter().enumerate() {
            t += *length;
            let seen = self.look_along(first, start, TimeUnits(t));
            out[j] = seen.level;
            first = seen.next;
            start = seen.start;
        }
    }
}

// Pass 2 by lengths. Gives the reads of a wave whose cycles last as `cycles` says, w1 to w2 time units each, by a
// reader whose reads last as `reads` says, r1 to r2 time units each, and start at p. The wave ends with the last cycle
// that has both a level and a length; there is a read as long as there is a length for it and it ends by then.
// Refuses with 1 (w1, w2, r1 or r2 out of range, w1 above w2, r1 above r2, a length out of its bounds, or p not below
// the first writer cycle's length), 3 (a list of more than 1,048,576 entries), 2 (the place of the first entry of the
// wave that is no level and not unknown), 4 (an output shorter than the reads).
// The output's front holds the reads, and its rest is untouched; a refusal leaves it whole as it was.
#[tactic(auto, unfolding(crate::specs::Answers::warped_by_lengths))]
pub fn warp_by_lengths(
    wave: &[u8],
    w: Bounds,
    r: Bounds,
    p: TimeUnits,
    cycles: &[usize],
    reads: &[usize],
    out: &mut [u8],
) -> Result<ReadCycles, Refusal>
    ensures { warped_by_lengths w.least.0 w.most.0 r.least.0 r.most.0 p.0 cycles.now reads.now
        wave.now out.old ≡ (read_says result, out.new) }
{
    if !lengths_fit(w, r, p, cycles, reads) {
        return Err(Refusal::Setting(0));
    }
    if ENTRIES_MOST < wave.len() {
        return Err(Refusal::Limit);
    }
    if ENTRIES_MOST < cycles.len() {
        return Err(Refusal::Limit);
    }
    if ENTRIES_MOST < reads.len() {
        return Err(Refusal::Limit);
    }
    measure::check_entries(wave, UNKNOWN)?;
    let all = cycles_with_both(wave, cycles);
    let wandering = Wandering {
        wave: &wave[..all.0],
        cycles,
    };
    let taken = Reads { lengths: reads, p };
    let n = wandering.count(taken);
    if out.len() < n.0 {
        return Err(Refusal::Room);
    }
    if n.0 == 0 {
        return Ok(n);
    }
    wandering.warp_along(taken, n, out);
    Ok(n)
}
