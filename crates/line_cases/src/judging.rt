// The judges: yes or no, and the margins.
use cases::{reading, show};
use measure::{ReadCycles, Refusal, TimeUnits, WriterCycles};
use settings::{Clocks, Margins, Pair, QuietMargins, Verdict};
use std::io;

// Margins that are printed one after another.
trait Shown: Copy {
    fn shown(self, rt: &impl Print) -> io::Result<()>;
}

impl Shown for Margins {
    fn shown(self, rt: &impl Print) -> io::Result<()> {
        show::signed(rt, self.m1)?;
        show::signed(rt, self.m2)?;
        show::signed(rt, self.m3)
    }
}

impl Shown for QuietMargins {
    fn shown(self, rt: &impl Print) -> io::Result<()> {
        self.cell.shown(rt)?;
        show::signed(rt, self.m4)?;
        show::signed(rt, self.m5)
    }
}

// Prints yes or no, and the margins; or why it refused. An operation that judges writes no entries.
fn judged<M: Shown>(rt: &impl Print, answer: Result<Verdict<M>, Refusal>) -> io::Result<usize> {
    match answer {
        Ok(Verdict::Yes(margins)) => {
            show::yes(rt)?;
            margins.shown(rt)?;
        }
        Ok(Verdict::No(margins)) => {
            show::no(rt)?;
            margins.shown(rt)?;
        }
        Err(refusal) => show::refused(rt, refusal)?,
    }
    Ok(0)
}

fn pair(a: usize, b: usize, g: usize) -> Pair {
    Pair {
        a: WriterCycles(a),
        b: WriterCycles(b),
        g: WriterCycles(g),
    }
}

fn steady(w: usize, r: usize) -> Clocks {
    Clocks::steady(TimeUnits(w), TimeUnits(r))
}

fn ends(w1: usize, w2: usize, r1: usize, r2: usize) -> Clocks {
    Clocks {
        w1: TimeUnits(w1),
        w2: TimeUnits(w2),
        r1: TimeUnits(r1),
        r2: TimeUnits(r2),
    }
}

// a b g k w r
pub fn judge(rt: &impl Print, case: &[u8]) -> io::Result<usize> {
    let [a, b, g, k, w, r] = reading::numbers_of::<6>(case);
    judged(
        rt,
        settings::judge(pair(a, b, g), ReadCycles(k), steady(w, r)),
    )
}

// a b g k w1 w2 r1 r2
pub fn judge_ends(rt: &impl Print, case: &[u8]) -> io::Result<usize> {
    let [a, b, g, k, w1, w2, r1, r2] = reading::numbers_of::<8>(case);
    judged(
        rt,
        settings::judge(pair(a, b, g), ReadCycles(k), ends(w1, w2, r1, r2)),
    )
}

// a b g k w r Q lead
pub fn judge_quiet(rt: &impl Print, case: &[u8]) -> io::Result<usize> {
    let [a, b, g, k, w, r, q, lead] = reading::numbers_of::<8>(case);
    let (q, lead) = (ReadCycles(q), WriterCycles(lead));
    judged(
        rt,
        settings::judge_quiet(pair(a, b, g), ReadCycles(k), steady(w, r), q, lead),
    )
}

// a b g k w1 w2 r1 r2 Q lead, which may go on after a bar, where `numbers_of` ends
pub fn judge_quiet_ends(rt: &impl Print, case: &[u8]) -> io::Result<usize> {
    let mut numbers = [0; 10];
    reading::number_list(reading::after(case, b':'), &mut numbers);
    let [a, b, g, k, w1, w2, r1, r2, q, lead] = numbers;
    let (q, lead) = (ReadCycles(q), WriterCycles(lead));
    judged(
        rt,
        settings::judge_quiet(pair(a, b, g), ReadCycles(k), ends(w1, w2, r1, r2), q, lead),
    )
}
