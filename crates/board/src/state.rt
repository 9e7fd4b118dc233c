// What a receiver keeps, and when that is well formed.
ghost use Rattle.std.specs.Prelude.{◌≡◌, ◌&&◌, ◌+◌, ◌*◌, ◌/◌, ◌%◌, ◌^◌, ◌<◌, [], leb, ltb, get_or, set};
ghost use Rattle.board.specs.Packed.{kept};
ghost use Rattle.board.specs.WellFormed.{run_fits, run_level_fits, left_fits, found_fits, level_fits, all_zero};
ghost use Rattle.board.specs.WellFormed.{unused_zero};
ghost use Rattle.board.specs.Listening.{hunting_at, ready_at, marked_at, sampled_at};
ghost use Rattle.measure.specs.Ranges.{bits_most};
ghost use Rattle.measure.specs.Cells.{bit_of};

use crate::{Mode, Numbers};
use measure::{HIGH, ReadCycles};

// No bits.
pub fn none() -> [u8; 128]
    ensures { kept [] ≡ result }
{
    [0u8; 128]
}

impl Numbers {
    // Hunting, which keeps no bits.
    pub(crate) fn hunting(run: ReadCycles, runlevel: u8) -> Numbers
        ensures { result ≡ hunting_at run runlevel }
    {
        Numbers {
            mode: Mode::Hunting,
            run,
            runlevel,
            left: ReadCycles(0),
            level: HIGH,
            found: 0,
        }
    }

    // Ready after so many reads of a level, which keeps no bits.
    pub(crate) fn ready(run: ReadCycles, level: u8) -> Numbers
        ensures { result ≡ ready_at run level }
    {
        Numbers {
            mode: Mode::Ready,
            run,
            runlevel: level,
            left: ReadCycles(0),
            level,
            found: 0,
        }
    }

    // Counting, at a mark, whose sample is k reads away.
    pub(crate) fn marked(k: ReadCycles, run: ReadCycles, mark: u8, found: usize) -> Numbers
        ensures { result ≡ marked_at k run mark found }
    {
        Numbers {
            mode: Mode::Counting,
            run,
            runlevel: mark,
            left: k,
            level: mark,
            found,
        }
    }

    // Waiting, at a sample.
    pub(crate) fn sampled(run: ReadCycles, sample: u8, found: usize) -> Numbers
        ensures { result ≡ sampled_at run sample found }
    {
        Numbers {
            mode: Mode::Waiting,
            run,
            runlevel: sample,
            left: ReadCycles(0),
            level: sample,
            found,
        }
    }

    // Whether the run has begun and is short of q.
    fn running(self, q: ReadCycles) -> bool
        ensures { (leb 1 self.run.0 && ltb self.run.0 q.0) ≡ result }
    {
        1 <= self.run.0 && self.run.0 < q.0
    }

    // Whether the run is q in ready and below q in any other mode, and is not 0 within a row.
    pub(crate) fn run_fits(self, q: ReadCycles) -> bool
        ensures { run_fits self.mode self.run.0 q.0 ≡ result }
    {
        match self.mode {
            Mode::Hunting => self.run.0 < q.0,
            Mode::Ready => self.run.0 == q.0,
            Mode::Counting | Mode::Waiting => self.running(q),
        }
    }

    // Whether the run's level is a level, and high where no read has come.
    pub(crate) fn run_level_fits(self) -> bool
        ensures { run_level_fits self.run.0 self.runlevel ≡ result }
    {
        if self.run.0 == 0 {
            self.runlevel == HIGH
        } else {
            self.runlevel <= HIGH
        }
    }

    // Whether the reads left are 1 to k in counting, and 0 in any other mode.
    pub(crate) fn left_fits(self, k: ReadCycles) -> bool
        ensures { left_fits self.mode self.left.0 k.0 ≡ result }
    {
        match self.mode {
            Mode::Counting => measure::between(1, k.0, self.left.0),
            Mode::Hunting | Mode::Ready | Mode::Waiting => self.left.0 == 0,
        }
    }

    // Whether the bits found are fewer than n within a row, and 0 outside one.
    pub(crate) fn found_fits(self, n: usize) -> bool
        ensures { found_fits self.mode self.found n ≡ result }
    {
        match self.mode {
            Mode::Hunting | Mode::Ready => self.found == 0,
            Mode::Counting | Mode::Waiting => self.found < n,
        }
    }

    // Whether the level kept is high in hunting, the run's in ready, and either level within a row.
    pub(crate) fn level_fits(self) -> bool
        ensures { level_fits self.mode self.level self.runlevel ≡ result }
    {
        match self.mode {
            Mode::Hunting => self.level == HIGH,
            Mode::Ready => self.level == self.runlevel,
            Mode::Counting | Mode::Waiting => self.level <= HIGH,
        }
    }
}

// The weight of a bit's place in its byte.
fn weight(place: usize) -> u8
    requires { place < 8 }
    ensures { 2 ^ place ≡ result }
{
    1u8 << place
}

// Whether every entry is 0, by the bits of all together: it takes no test for each, so that many are looked at in one
// step.
#[tactic(auto, using(crate::proofs::UnusedBits::looked_on))]
fn all_zero(entries: &[u8]) -> bool
    ensures { all_zero entries.now ≡ result }
{
    let mut all: u8 = 0;
    for entry in entries {
        all |= *entry;
    }
    all == 0
}

// Whether the places from the number found on hold 0: first those of the byte that the next bit falls in, then whole
// bytes. Up to 512 bits these are looked at in two parts of fixed length, which overlap and take no loop. Kept out of
// its callers, so that they have their registers for the numbers: where all is inlined, a step took 60 instructions
// more with it inside.
#[inline(never)]
pub fn unused_zero(bits: &[u8; 128], found: usize) -> bool
    requires { found < bits_most }
    ensures { unused_zero found bits.now ≡ result }
{
    let at = found / 8;
    let byte = bits[at];
    if weight(found % 8) <= byte {
        return false;
    }
    let whole = &bits[..];
    let next = at + 1;
    if at < 64 {
        if !all_zero(&whole[next..next + 64]) {
            return false;
        }
        return all_zero(&whole[64..]);
    }
    all_zero(&whole[next..])
}

// Puts the bit of a cell, by its mark and its sample, in a place that holds 0, as do all later ones.
pub fn put(bits: &mut [u8; 128], at: usize, mark: u8, sample: u8)
    requires { (at < bits_most) × (get_or bits.old (at / 8) 0 < 2 ^ (at % 8)) }
    ensures { set bits.old (at / 8)
        (get_or bits.old (at / 8) 0 + bit_of mark sample * 2 ^ (at % 8)) ≡ bits.new }
{
    if sample != mark {
        bits[at / 8] += weight(at % 8);
    }
}
