// Warp with steady clocks, read by read: all cycles have one length, and so have all reads. When a cycle or a read ends
// is carried along: no end is a product.
ghost use Rattle.std.specs.Prelude.{◌≡◌, true, ◌+◌, ◌*◌, ◌<◌, ◌≤◌, length, drop, get_or, MatchOption};
ghost use Rattle.measure.specs.Lists.{onto};
ghost use Rattle.measure.specs.Ranges.{cycle_length, entries_most};
ghost use Rattle.line.specs.Warp.{cycle_start, reconcile as agree, look, warp as warping};
ghost use Rattle.line.specs.Sharing.{read_count};
ghost use Rattle.line.specs.Looking.{read_from, left_from, block_most};
ghost use Rattle.line.specs.Looking.{CarriesStart, CarriesEnd, GoesOn, Onward, Ends, Finds};
ghost use Rattle.line.specs.Answers.{timed};

use crate::{Timing, agreed};
use measure::{ReadCycles, TimeUnits, WriterCycles};

// A read under way, and what one that is over leaves to the next: the level found, the first cycle left to look at, and
// when that one starts.
#[derive(Clone, Copy)]
pub struct Looking {
    pub level: u8,
    pub next: WriterCycles,
    pub start: TimeUnits,
}

// What a read is, the first cycle that it leaves for the next read, and when that one ends. A read that leaves the last
// cycle it looked at has that end at hand, and its start it would have to work out.
#[derive(Clone, Copy)]
pub struct Looked {
    level: u8,
    left: WriterCycles,
    end: TimeUnits,
}

impl Looking {
    // Ends a read before the last cycle looked at is over: that cycle is left for the next read.
    fn keep_last(self) -> Looked
        requires { 0 < self.next.0 }
        ensures { (self.level ≡ result.level) × (result.left.0 + 1 ≡ self.next.0)
            × (self.start.0 ≡ result.end.0) }
    {
        Looked {
            level: self.level,
            left: WriterCycles(self.next.0 - 1),
            end: self.start,
        }
    }
}

// The most cycles of a block. A read looks at 65,535 at most, so at most 1,024 calls of reconcile are open at a time.
const BLOCK: usize = 64;

// A wave whose cycles all last w, and how long a block of them lasts.
#[derive(Clone, Copy)]
pub struct Steady<'a> {
    wave: &'a [u8],
    w: TimeUnits,
    span: TimeUnits,
    ghost in_range: { cycle_length w.0 ≡ true },
    ghost few: { length wave.now ≤ entries_most },
    ghost spans: { block_most * w.0 ≡ span.0 },
}

impl<'a> Steady<'a> {
    fn new(wave: &'a [u8], w: TimeUnits) -> Steady<'a>
        requires { (cycle_length w.0 ≡ true) × (length wave.now ≤ entries_most) }
        ensures { (result.wave.now ≡ wave.now) × (result.w.0 ≡ w.0) }
    {
        let span = BLOCK * w.0;
        Steady {
            wave,
            w,
            span: TimeUnits(span),
        }
    }

    // Ends a read together with the last cycle looked at: that cycle is dropped, and the one after it is left.
    fn drop_last(self, looking: Looking) -> Looked
        requires { (looking.next.0 ≤ length self.wave.now) × CarriesStart self.w.0 looking }
        ensures { (looking.level ≡ result.level) × (result.left.0 ≡ looking.next.0)
            × CarriesEnd self.entry.w.0 result }
    {
        let later = looking.start.0 + self.w.0;
        Looked {
            level: looking.level,
            left: looking.next,
            end: TimeUnits(later),
        }
    }

    // How a read that ends at `t` is ended by the last cycle looked at, if that one is not over before: it is dropped
    // if it ends with the read, and otherwise left.
    fn ended(self, looking: Looking, t: TimeUnits) -> Option<Looked>
        requires { (looking.next.0 ≤ length self.wave.now) × CarriesStart self.w.0 looking × (0 < looking.next.0) }
        ensures { MatchOption result (looking.start.0 < t.0) (Ends self.entry.w.0 t.0 looking) }
    {
        if t.0 < looking.start.0 {
            return Some(looking.keep_last());
        }
        if t.0 == looking.start.0 {
            return Some(self.drop_last(looking));
        }
        None
    }

    // Looks at one cycle more, which ends one cycle's length later.
    fn look_on(self, looking: Looking) -> Looking
        requires { (looking.next.0 < length self.wave.now) × CarriesStart self.w.0 looking }
        ensures { (agree looking.level (get_or self.entry.wave.now looking.next.0 0) ≡ result.level)
            × (looking.next.0 + 1 ≡ result.next.0) × CarriesStart self.entry.w.0 result }
    {
        let i = looking.next.0;
        let level = agreed(looking.level, self.wave[i]);
        let end = looking.start.0 + self.w.0;
        Looking {
            level,
            next: WriterCycles(i + 1),
            start: TimeUnits(end),
        }
    }

    // Looks at the cycles of one block, or at those up to the read's end `t` where that is sooner. What ends the loop
    // is a time, and no place that a range could name.
    fn look_block(self, looking: Looking, t: TimeUnits) -> Looking
        requires { GoesOn self.w.0 t.0 self.wave.now looking }
        ensures { Onward self.entry.w.0 t.0 self.entry.wave.now looking result }
    {
        let block = looking.start.0 + self.span.0;
        let stop = block.min(t.0);
        let mut at = looking;
        while at.start.0 < stop {
            at = self.look_on(at);
        }
        at
    }

    // Reconciles the level found so far with the cycles that the read, which ends at `t`, has yet to look at: with a
    // block of them here, and with the rest by a call of itself. The number of cycles left falls at each call. The wave
    // is lent, which keeps a call's frame small: many are open at a time.
    fn reconcile(&self, looking: Looking, t: TimeUnits) -> Looked
        requires { GoesOn self.now.w.0 t.0 self.now.wave.now looking }
        ensures { Finds self.now.w.0 (read_from self.now.w.0 t.0 self.now.wave.now looking.level looking.next.0)
            (left_from self.now.w.0 t.0 self.now.wave.now looking.next.0) result }
    {
        let at = self.look_block(looking, t);
        if let Some(looked) = self.ended(at, t) {
            return looked;
        }
        self.reconcile(at, t)
    }

    // One read, which ends at `t`: it looks at the cycles left over, one after another, of which the first ends at
    // `end`. A read of up to twice a cycle's length looks at three at most. Each of these has two ways out of its own,
    // which is quicker than to work out what is left, and a longer read has one block here before it takes a call.
    fn one_read(self, first: WriterCycles, end: TimeUnits, t: TimeUnits) -> Looked
        requires { (first.0 * self.w.0 < t.0) × (t.0 ≤ length self.wave.now * self.w.0)
            × ((first.0 + 1) * self.w.0 ≡ end.0) }
        ensures { Finds self.entry.w.0
            (look (cycle_start self.entry.w.0) t.0 first.0 (drop first.0 self.entry.wave.now))
            (left_from self.entry.w.0 t.0 self.entry.wave.now first.0) result }
    {
        let one = Looking {
            level: self.wave[first.0],
            next: WriterCycles(first.0 + 1),
            start: end,
        };
        if t.0 < end.0 {
            return one.keep_last();
        }
        if t.0 == end.0 {
            return self.drop_last(one);
        }
        let two = self.look_on(one);
        if let Some(looked) = self.ended(two, t) {
            return looked;
        }
        let three = self.look_on(two);
        if let Some(looked) = self.ended(three, t) {
            return looked;
        }
        let at = self.look_block(three, t);
        match self.ended(at, t) {
            Some(looked) => looked,
            None => {
                // A copy is lent: the loop over reads keeps its own in registers.
                let lent = self;
                lent.reconcile(at, t)
            }
        }
    }
}

// Writes the reads one after another.
pub fn warp_into(wave: &[u8], timing: Timing, n: ReadCycles, out: &mut [u8])
    requires { (timed timing.w.0 timing.r.0 timing.p.0 ≡ true) × (length wave.now ≤ entries_most)
        × (read_count timing.w.0 timing.r.0 timing.p.0 (length wave.now) ≡ n.0) × (n.0 ≤ length out.old) }
    ensures { onto (warping timing.w.0 timing.r.0 timing.p.0 wave.now) out.old ≡ out.new }
{
    let steady = Steady::new(wave, timing.w);
    let mut t = timing.p.0;
    let mut first = WriterCycles(0);
    let mut end = timing.w;
    for slot in out[..n.0].iter_mut() {
        t += timing.r.0;
        let looked = steady.one_read(first, end, TimeUnits(t));
        *slot = looked.level;
        first = looked.left;
        end = looked.end;
    }
}
