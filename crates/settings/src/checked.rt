// Settings that are in range, and their margins.
ghost use Rattle.std.specs.Prelude.{◌≡◌, true, false, ◌≤◌, ◌-ℤ◌, ◌*ℤ◌, IfOk, IfErr};
ghost use Rattle.measure.specs.declared.Refusal.TheVariants.{Setting};
ghost use Rattle.settings.specs.Margins.{ends_of, signed, m1, m2, m3, m4, m5};
ghost use Rattle.settings.specs.Answers.{in_range, quiet_in_range, cell_margins, all_margins};

use crate::{Clocks, Margins, Pair, QuietMargins};
use measure::{
    PAD_MOST, QUIET_LEAST, QUIET_MOST, ReadCycles, Refusal, SAMPLING_LEAST, SAMPLING_MOST,
    WriterCycles,
};

// Gives a margin. Each of the five has this form: so many cycles of one clock less the spare ones, against so many of
// the other. Either clock may come first, so these are bare numbers. All are below 2^17, so `as` cuts nothing off.
fn margin(count: usize, spare: usize, cycle: usize, others: usize, other: usize) -> i64
    requires { (count ≤ 65536) × (spare ≤ 65536) × (cycle ≤ 65536) × (others ≤ 65536) × (other ≤ 65536) }
    ensures { result ≡ (signed count -ℤ signed spare) *ℤ signed cycle -ℤ signed others *ℤ signed other }
{
    let kept = (count as i64) - (spare as i64);
    let time = kept * (cycle as i64);
    let other_time = (others as i64) * (other as i64);
    time - other_time
}

// a, b, g, k and the ends of two clocks, all in range. Each margin takes the two ends that it has to do with.
#[derive(Clone, Copy)]
pub struct Settings {
    pub pair: Pair,
    pub k: ReadCycles,
    pub clocks: Clocks,
    ghost in_range: { in_range pair.a.0 pair.b.0 pair.g.0 k.0 (ends_of clocks) ≡ true },
}

impl Settings {
    // Gives the settings. Refuses with 1 those out of range.
    pub fn checked(pair: Pair, k: ReadCycles, clocks: Clocks) -> Result<Settings, Refusal>
        ensures ok { IfOk result (λ s. (s.pair ≡ pair) × (s.k ≡ k) × (s.clocks ≡ clocks)) }
        ensures err { IfErr result (λ refusal. (refusal ≡ Setting 0)
            × (in_range pair.a.0 pair.b.0 pair.g.0 k.0 (ends_of clocks) ≡ false)) }
    {
        if !(pair.fits() & measure::between(SAMPLING_LEAST, SAMPLING_MOST, k.0) & clocks.fit()) {
            return Err(Refusal::Setting(0));
        }
        Ok(Settings { pair, k, clocks })
    }

    // Gives M1: the mark subcell against two reads.
    #[tactic(auto, using(crate::proofs::Signs::read_back), unfolding(crate::specs::Margins::m1))]
    pub fn m1(self) -> i64
        ensures { result ≡ m1 self.pair.a.0 self.pair.g.0 (ends_of self.clocks) }
    {
        let Pair { a, g, .. } = self.pair;
        let Clocks { w1, r2, .. } = self.clocks;
        margin(a.0, g.0, w1.0, 2, r2.0)
    }

    // Gives M2: the sampling count against the mark subcell.
    #[tactic(auto, using(crate::proofs::Signs::read_back), unfolding(crate::specs::Margins::m2))]
    pub fn m2(self) -> i64
        ensures { result ≡ m2 self.pair.a.0 self.pair.g.0 self.k.0 (ends_of self.clocks) }
    {
        let Pair { a, g, .. } = self.pair;
        let Clocks { w2, r1, .. } = self.clocks;
        margin(self.k.0, 1, r1.0, a.0 + g.0, w2.0)
    }

    // Gives M3: the whole cell against the sampling count.
    #[tactic(auto, using(crate::proofs::Signs::read_back), unfolding(crate::specs::Margins::m3))]
    fn m3(self) -> i64
        ensures { result ≡ m3 self.pair.a.0 self.pair.b.0 self.pair.g.0 self.k.0 (ends_of self.clocks) }
    {
        let Pair { a, b, g } = self.pair;
        let Clocks { w1, r2, .. } = self.clocks;
        margin(a.0 + b.0, g.0, w1.0, self.k.0 + 2, r2.0)
    }

    // Gives M1, M2 and M3.
    pub fn margins(self) -> Margins
        ensures { result ≡ cell_margins self.pair.a.0 self.pair.b.0 self.pair.g.0 self.k.0 (ends_of self.clocks) }
    {
        Margins {
            m1: self.m1(),
            m2: self.m2(),
            m3: self.m3(),
        }
    }
}

// Settings in range, with a quiet count and a lead pad in range.
#[derive(Clone, Copy)]
pub struct QuietSettings {
    cell: Settings,
    q: ReadCycles,
    p1: WriterCycles,
    ghost in_range: { quiet_in_range cell.pair.a.0 cell.pair.b.0 cell.pair.g.0 cell.k.0 (ends_of cell.clocks) q.0 p1.0
        ≡ true },
}

impl QuietSettings {
    // Gives the settings. Refuses with 1 those out of range.
    pub fn checked(
        pair: Pair,
        k: ReadCycles,
        clocks: Clocks,
        q: ReadCycles,
        p1: WriterCycles,
    ) -> Result<QuietSettings, Refusal>
        ensures ok { IfOk result (λ s. (s.cell.pair ≡ pair) × (s.cell.k ≡ k) × (s.cell.clocks ≡ clocks) × (s.q ≡ q)
            × (s.p1 ≡ p1)) }
        ensures err { IfErr result (λ refusal. (refusal ≡ Setting 0)
            × (quiet_in_range pair.a.0 pair.b.0 pair.g.0 k.0 (ends_of clocks) q.0 p1.0 ≡ false)) }
    {
        let cell = Settings::checked(pair, k, clocks)?;
        if measure::between(QUIET_LEAST, QUIET_MOST, q.0) & (p1.0 <= PAD_MOST) {
            Ok(QuietSettings { cell, q, p1 })
        } else {
            Err(Refusal::Setting(0))
        }
    }

    // Gives M4: the quiet count against a cell.
    #[tactic(auto, using(crate::proofs::Signs::read_back), unfolding(crate::specs::Margins::m4))]
    fn m4(self) -> i64
        ensures { result ≡ m4 self.cell.pair.a.0 self.cell.pair.b.0 self.cell.pair.g.0 (ends_of self.cell.clocks) self.q.0 }
    {
        let Pair { a, b, g } = self.cell.pair;
        let Clocks { w2, r1, .. } = self.cell.clocks;
        margin(self.q.0, 2, r1.0, a.0 + b.0 + g.0, w2.0)
    }

    // Gives M5: the lead pad against the quiet count.
    #[tactic(auto, using(crate::proofs::Signs::read_back), unfolding(crate::specs::Margins::m5))]
    fn m5(self) -> i64
        ensures { result ≡ m5 self.cell.pair.g.0 (ends_of self.cell.clocks) self.q.0 self.p1.0 }
    {
        let g = self.cell.pair.g;
        let Clocks { w1, r2, .. } = self.cell.clocks;
        margin(self.p1.0, g.0, w1.0, self.q.0 + 1, r2.0)
    }

    // Gives all five margins.
    pub fn margins(self) -> QuietMargins
        ensures { result
            ≡ all_margins self.cell.pair.a.0 self.cell.pair.b.0 self.cell.pair.g.0 self.cell.k.0 (ends_of self.cell.clocks)
            self.q.0 self.p1.0 }
    {
        QuietMargins {
            cell: self.cell.margins(),
            m4: self.m4(),
            m5: self.m5(),
        }
    }
}
