// Smoothing, many cycles at a time. A cycle stays if it and the g cycles before it have one level, so it becomes what
// g + 1 levels agree on. What two levels from each place on agree on gives what four do, that gives what eight do, and
// so on: each of these steps compares a list with itself some places further on, which the compiler does for many
// places at a time, and seven steps are enough for any g. They are taken block by block, so that the wave is gone over
// once.
ghost use Rattle.std.specs.Prelude.{◌≡◌, ◌+◌, ◌<◌, ◌≤◌, length};
ghost use Rattle.measure.specs.Lists.{onto};
ghost use Rattle.line.specs.Smooth.{smooth as smoothing};
ghost use Rattle.line.specs.Windows.{level_at, agreeing, listed, agreed_apart, Widens};

use crate::agreed;
use measure::{HIGH, SETTLING_MOST};

// The most cycles of a block.
const BLOCK: usize = 1024;

// What a step makes of a block, and of as many cycles before it as the greatest settling count has.
const HELD: usize = BLOCK + SETTLING_MOST;

// The first cycles of a wave, with high before them.
const LEAD: usize = SETTLING_MOST + SETTLING_MOST;

// Writes what each level and the one `apart` places after it agree on. It never stops early, so that the compiler can
// take many places at a time.
fn agree_apart(levels: &[u8], apart: usize, out: &mut [u8])
    requires { length out.old + apart ≤ length levels.now }
    ensures { listed (agreed_apart (level_at levels.now) apart) 0 (length out.old) ≡ out.new }
{
    for (i, slot) in out.iter_mut().enumerate() {
        *slot = agreed(levels[i + apart], levels[i]);
    }
}

// Writes what g + 1 levels agree on, from each place of `out` on, where `held` has what reach + 1 do. A step takes the
// reach to twice as many levels, and the last one to g. `held` and `spare` change places at each step.
fn widen(reach: usize, g: usize, held: &mut [u8], spare: &mut [u8], out: &mut [u8])
    requires { (reach < g) × (length out.old + g ≤ length held.old) × (length out.old + g ≤ length spare.old) }
    ensures { Widens reach g (length out.old) held.old out.new }
{
    let more = g - reach;
    let step = reach + 1;
    if more <= step {
        agree_apart(held, more, out);
        return;
    }
    let wanted = out.len() + (more - step);
    agree_apart(held, step, &mut spare[..wanted]);
    widen(reach + step, g, spare, held, out)
}

// Smooths a block: writes what g + 1 levels agree on, from each of the first places on. With a g of 1 that is one step.
fn smooth_block(g: usize, levels: &[u8], held: &mut [u8], spare: &mut [u8], out: &mut [u8])
    requires { (0 < g) × (length out.old + g ≤ length levels.now) × (length out.old + g ≤ length held.old)
        × (length out.old + g ≤ length spare.old) }
    ensures { listed (agreeing (level_at levels.now) g) 0 (length out.old) ≡ out.new }
{
    if g == 1 {
        agree_apart(levels, 1, out);
        return;
    }
    let wanted = out.len() + (g - 1);
    agree_apart(levels, 1, &mut held[..wanted]);
    widen(1, g, held, spare, out)
}

// Smooths a wave block by block. The first block is short, and has high before it; every other has enough of the wave
// before it. It goes by places, since a block starts g cycles before the place where it is written.
pub fn smooth_into(wave: &[u8], g: usize, out: &mut [u8])
    requires { (0 < g) × (g ≤ 64) × (length wave.now ≤ length out.old) }
    ensures { onto (smoothing g wave.now) out.old ≡ out.new }
{
    let mut lead = [HIGH; LEAD];
    let mut held = [HIGH; HELD];
    let mut spare = [HIGH; HELD];
    let first = wave.len().min(SETTLING_MOST);
    lead[g..g + first].copy_from_slice(&wave[..first]);
    smooth_block(g, &lead, &mut held, &mut spare, &mut out[..first]);
    let mut done = first;
    while done < wave.len() {
        let end = wave.len().min(done + BLOCK);
        smooth_block(
            g,
            &wave[done - g..],
            &mut held,
            &mut spare,
            &mut out[done..end],
        );
        done = end;
    }
}
