// Judging: settings against the margins.
ghost use Rattle.std.specs.Prelude.{◌≡◌, List, ℤ, [], ◌∷◌};
ghost use Rattle.settings.specs.Margins.{ends, ends_of, steady};
ghost use Rattle.settings.specs.Answers.{judgement, quiet_judgement};
ghost use Rattle.siengulot.specs.Crossing.{judged_three, judged_five, verdict_over};

use measure::{ReadCycles, Refusal, TimeUnits, WriterCycles};
use settings::{Clocks, Margins, Pair, QuietMargins, Verdict};

// What stands in `accepted`.
const YES: usize = 1;

const NO: usize = 0;

// The pair of three bare numbers.
pub fn pair(a: usize, b: usize, g: usize) -> Pair
    ensures { (result.a.0 ≡ a) × (result.b.0 ≡ b) × (result.g.0 ≡ g) }
{
    Pair {
        a: WriterCycles(a),
        b: WriterCycles(b),
        g: WriterCycles(g),
    }
}

// The clocks of four ends.
pub fn clocks(w1: usize, w2: usize, r1: usize, r2: usize) -> Clocks
    ensures { ends_of result ≡ ends w1 w2 r1 r2 }
{
    Clocks {
        w1: TimeUnits(w1),
        w2: TimeUnits(w2),
        r1: TimeUnits(r1),
        r2: TimeUnits(r2),
    }
}

// Margins as C lends them, one after another.
trait Laid<const N: usize> {
    ghost laid: { Self → List ℤ };

    fn lay(self) -> [i64; N]
        ensures { laid self ≡ result };
}

impl Laid<3> for Margins {
    ghost laid = { λ m. m.m1 ∷ m.m2 ∷ m.m3 ∷ [] };

    fn lay(self) -> [i64; 3] {
        [self.m1, self.m2, self.m3]
    }
}

impl Laid<5> for QuietMargins {
    ghost laid = { λ m. m.cell.m1 ∷ m.cell.m2 ∷ m.cell.m3 ∷ m.m4 ∷ m.m5 ∷ [] };

    fn lay(self) -> [i64; 5] {
        let cell = self.cell;
        [cell.m1, cell.m2, cell.m3, self.m4, self.m5]
    }
}

// What the judges answer. A refusal is a no.
fn of_judged<M: Laid<N>, const N: usize>(
    answer: Result<Verdict<M>, Refusal>,
    margins: &mut [i64; N],
    accepted: &mut usize,
) -> usize
    ensures { verdict_over M.laid answer margins.old ≡ (result, accepted.new, margins.new) }
{
    *accepted = NO;
    match answer {
        Ok(Verdict::Yes(m)) => {
            *accepted = YES;
            *margins = m.lay();
            0
        }
        Ok(Verdict::No(m)) => {
            *margins = m.lay();
            0
        }
        Err(refusal) => refusal.number(),
    }
}

// The judge, for steady clocks. Gives M1, M2 and M3, and 1 in `accepted` exactly if all three are zero or more,
// otherwise 0. Refuses with 1 a setting out of range: the margins are left, and `accepted` is 0.
pub fn siengulot_judge(
    a: usize,
    b: usize,
    g: usize,
    k: usize,
    w: usize,
    r: usize,
    margins: &mut [i64; 3],
    accepted: &mut usize,
) -> usize
    ensures { judged_three (judgement a b g k (steady w r)) margins.old
        ≡ (result, accepted.new, margins.new) }
{
    let pair = pair(a, b, g);
    let clocks = Clocks::steady(TimeUnits(w), TimeUnits(r));
    let answer = settings::judge(pair, ReadCycles(k), clocks);
    of_judged(answer, margins, accepted)
}

// The judge over the ends of two clocks. Gives M1, M2 and M3 over them, and 1 in `accepted`
// exactly if all three are zero or more, otherwise 0. Refuses with 1 a setting out of range, and a least length above
// its greatest: the margins are left, and `accepted` is 0.
pub fn siengulot_judge_ends(
    a: usize,
    b: usize,
    g: usize,
    k: usize,
    w1: usize,
    w2: usize,
    r1: usize,
    r2: usize,
    margins: &mut [i64; 3],
    accepted: &mut usize,
) -> usize
    ensures { judged_three (judgement a b g k (ends w1 w2 r1 r2)) margins.old
        ≡ (result, accepted.new, margins.new) }
{
    let pair = pair(a, b, g);
    let clocks = clocks(w1, w2, r1, r2);
    let answer = settings::judge(pair, ReadCycles(k), clocks);
    of_judged(answer, margins, accepted)
}

// The quiet judge, for steady clocks. Gives M1 to M5, and 1 in `accepted` exactly if all five are zero or more,
// otherwise 0. Refuses with 1 a setting out of range: the margins are left, and `accepted` is 0.
pub fn siengulot_judge_quiet(
    a: usize,
    b: usize,
    g: usize,
    k: usize,
    w: usize,
    r: usize,
    q: usize,
    p1: usize,
    margins: &mut [i64; 5],
    accepted: &mut usize,
) -> usize
    ensures { judged_five (quiet_judgement a b g k (steady w r) q p1) margins.old
        ≡ (result, accepted.new, margins.new) }
{
    let pair = pair(a, b, g);
    let clocks = Clocks::steady(TimeUnits(w), TimeUnits(r));
    let answer = settings::judge_quiet(
        pair,
        ReadCycles(k),
        clocks,
        ReadCycles(q),
        WriterCycles(p1),
    );
    of_judged(answer, margins, accepted)
}

// The quiet judge over the ends of two clocks. Gives M1 to M5 over them, and 1 in `accepted`
// exactly if all five are zero or more, otherwise 0. Refuses with 1 a setting out of range, and a least length above
// its greatest: the margins are left, and `accepted` is 0.
pub fn siengulot_judge_quiet_ends(
    a: usize,
    b: usize,
    g: usize,
    k: usize,
    w1: usize,
    w2: usize,
    r1: usize,
    r2: usize,
    q: usize,
    p1: usize,
    margins: &mut [i64; 5],
    accepted: &mut usize,
) -> usize
    ensures { judged_five (quiet_judgement a b g k (ends w1 w2 r1 r2) q p1) margins.old
        ≡ (result, accepted.new, margins.new) }
{
    let pair = pair(a, b, g);
    let clocks = clocks(w1, w2, r1, r2);
    let answer = settings::judge_quiet(
        pair,
        ReadCycles(k),
        clocks,
        ReadCycles(q),
        WriterCycles(p1),
    );
    of_judged(answer, margins, accepted)
}
