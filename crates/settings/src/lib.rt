// Judging settings: the margins of the rules as signed numbers, and yes or no. Each margin is over the ends of the two
// clocks, w1 to w2 and r1 to r2; steady clocks are those whose ends are equal.
#![tactic(auto)]

mod checked;
mod picking;
mod surveying;

ghost use Rattle.std.specs.Prelude.{◌≡◌, ◌&&◌};
ghost use Rattle.measure.specs.Choose.{choose};
ghost use Rattle.measure.specs.Ranges.{subcell, settling};
ghost use Rattle.settings.specs.Margins.{ends_of};
ghost use Rattle.settings.specs.Answers.{ends_fit, cell_met, all_met};
ghost use Rattle.settings.specs.Answers.{judgement, quiet_judgement, judged_says, quiet_judged_says};
ghost use Rattle.settings.specs.Pick.{lower};
ghost use Rattle.settings.specs.declared.Verdict.TheVariants.{Yes, No};

use checked::{QuietSettings, Settings};
use measure::{
    CYCLE_LEAST, CYCLE_MOST, ReadCycles, Refusal, SETTLING_LEAST, SETTLING_MOST, SUBCELL_LEAST,
    SUBCELL_MOST, TimeUnits, WriterCycles,
};
pub use picking::pick;
pub use surveying::{Figures, Smallest, survey};

// A cell's two subcells, and the settling count.
#[derive(Clone, Copy)]
pub struct Pair {
    pub a: WriterCycles,
    pub b: WriterCycles,
    pub g: WriterCycles,
}

impl Pair {
    // Tells whether all three are in range.
    fn fits(self) -> bool
        ensures { result ≡ (subcell self.a.0 && subcell self.b.0 && settling self.g.0) }
    {
        measure::between(SUBCELL_LEAST, SUBCELL_MOST, self.a.0)
            & measure::between(SUBCELL_LEAST, SUBCELL_MOST, self.b.0)
            & measure::between(SETTLING_LEAST, SETTLING_MOST, self.g.0)
    }
}

// The ends of two clocks: a writer cycle is w1 to w2 long, and a read r1 to r2.
#[derive(Clone, Copy)]
pub struct Clocks {
    pub w1: TimeUnits,
    pub w2: TimeUnits,
    pub r1: TimeUnits,
    pub r2: TimeUnits,
}

impl Clocks {
    // Gives clocks whose every writer cycle is w long, and every read r.
    pub fn steady(w: TimeUnits, r: TimeUnits) -> Clocks
        ensures { result ≡ record { w1 = w; w2 = w; r1 = r; r2 = r } }
    {
        Clocks {
            w1: w,
            w2: w,
            r1: r,
            r2: r,
        }
    }

    // Tells whether each end is in range, and neither least length above its greatest.
    fn fit(self) -> bool
        ensures { result ≡ ends_fit (ends_of self) }
    {
        measure::between(CYCLE_LEAST, CYCLE_MOST, self.w1.0)
            & measure::between(CYCLE_LEAST, CYCLE_MOST, self.w2.0)
            & measure::between(CYCLE_LEAST, CYCLE_MOST, self.r1.0)
            & measure::between(CYCLE_LEAST, CYCLE_MOST, self.r2.0)
            & (self.w1.0 <= self.w2.0)
            & (self.r1.0 <= self.r2.0)
    }
}

// M1, M2 and M3, in time units.
#[derive(Clone, Copy)]
pub struct Margins {
    pub m1: i64,
    pub m2: i64,
    pub m3: i64,
}

impl Margins {
    // Tells whether all three are zero or more.
    fn accepted(self) -> bool
        ensures { result ≡ cell_met self }
    {
        (self.m1 >= 0) & (self.m2 >= 0) & (self.m3 >= 0)
    }

    // Gives the least of the three.
    fn least(self) -> i64
        ensures { result ≡ lower self.m1 (lower self.m2 self.m3) }
    {
        self.m1.min(self.m2.min(self.m3))
    }
}

// All five margins, in time units.
#[derive(Clone, Copy)]
pub struct QuietMargins {
    pub cell: Margins,
    pub m4: i64,
    pub m5: i64,
}

impl QuietMargins {
    // Tells whether all five are zero or more.
    fn accepted(self) -> bool
        ensures { result ≡ all_met self }
    {
        self.cell.accepted() & (self.m4 >= 0) & (self.m5 >= 0)
    }
}

// What a judge answers, with the margins. It is neither a flag, since no word stands without its margins, nor a
// `Result`, since a no is an answer with margins of its own and no refusal.
#[derive(Clone, Copy)]
pub enum Verdict<M> {
    // Accepted: every margin is zero or more.
    Yes(M),
    // Not accepted: a margin is below zero. Whether anything would be lost is left open.
    No(M),
}

impl<M: Copy> Verdict<M> {
    // Gives the verdict on margins.
    fn on(margins: M, accepted: bool) -> Verdict<M>
        ensures { result ≡ choose accepted (Yes margins) (No margins) }
    {
        if accepted {
            Verdict::Yes(margins)
        } else {
            Verdict::No(margins)
        }
    }
}

// The judge. Gives M1, M2 and M3 over the ends of two clocks, and yes exactly if all three are zero or more.
// Refuses with 1 a setting out of range, and a least length above its greatest.
// Always inlined, since of steady clocks each length is then tested once.
#[inline(always)]
pub fn judge(pair: Pair, k: ReadCycles, clocks: Clocks) -> Result<Verdict<Margins>, Refusal>
    ensures { judgement pair.a.0 pair.b.0 pair.g.0 k.0 (ends_of clocks) ≡ judged_says result }
{
    // The refusal is named here, not handed on, so a fault in it strikes this judge alone (must-fail: judge_refusal).
    let Ok(settings) = Settings::checked(pair, k, clocks) else {
        return Err(Refusal::Setting(0));
    };
    let margins = settings.margins();
    Ok(Verdict::on(margins, margins.accepted()))
}

// The quiet judge. Gives all five margins over the ends of two clocks, and yes exactly if all five are zero or more.
// Refuses with 1 a setting out of range, and a least length above its greatest.
// Always inlined, since of steady clocks each length is then tested once.
#[inline(always)]
pub fn judge_quiet(
    pair: Pair,
    k: ReadCycles,
    clocks: Clocks,
    q: ReadCycles,
    p1: WriterCycles,
) -> Result<Verdict<QuietMargins>, Refusal>
    ensures { quiet_judgement pair.a.0 pair.b.0 pair.g.0 k.0 (ends_of clocks) q.0 p1.0
        ≡ quiet_judged_says result }
{
    let settings = QuietSettings::checked(pair, k, clocks, q, p1)?;
    let margins = settings.margins();
    Ok(Verdict::on(margins, margins.accepted()))
}
