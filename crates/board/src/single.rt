// One read, which is a level: what listening makes of it, with no loop around it. A caller that has one read at hand
// pays for no more: through the loops of `hear` a step takes more instructions.
ghost use Rattle.std.specs.Prelude.{◌≡◌, [], ◌∷◌, ◌≤◌};
ghost use Rattle.board.specs.Packed.{whole, rules_of, state_of};
ghost use Rattle.board.specs.Listening.{Keeps, heard_from, heard_says};

use crate::listening::{Heard, longer};
use crate::state::put;
use crate::{Bare, Mode, Numbers};
use measure::ReadCycles;

// Listens to one read.
pub fn hear_one(read: u8, bits: &mut [u8; 128], start: Bare) -> Heard
    requires keeps { Keeps (rules_of start.settings) start.numbers bits.old }
    requires read_bound { read ≤ 1 }
    ensures { (x : _)
        → heard_from x (rules_of start.settings) (state_of (whole start bits.old)) 0 (read ∷ [])
        ≡ heard_says (rules_of start.settings) bits.new result }
{
    let settings = start.settings;
    let now = start.numbers;
    let q = settings.q.0;
    let level = now.level;
    let found = now.found;
    match now.mode {
        Mode::Hunting => {
            let run = longer(now.run.0, now.runlevel, read);
            if run == q {
                return Heard::nothing(Numbers::ready(settings.q, read), 1);
            }
            Heard::nothing(Numbers::hunting(ReadCycles(run), read), 1)
        }
        Mode::Ready => {
            let quiet = now.runlevel;
            if read == quiet {
                return Heard::nothing(now, 1);
            }
            Heard::nothing(Numbers::marked(settings.k, ReadCycles(1), read, 0), 1)
        }
        Mode::Counting => {
            let run = longer(now.run.0, now.runlevel, read);
            if run == q {
                return Heard::broken(settings.q, found, read, 1);
            }
            let left = now.left.0 - 1;
            if left == 0 {
                put(bits, found, level, read);
                let more = found + 1;
                let n = settings.n;
                if more == n {
                    return Heard::row(ReadCycles(run), read, 1);
                }
                return Heard::nothing(Numbers::sampled(ReadCycles(run), read, more), 1);
            }
            let counted = Numbers {
                run: ReadCycles(run),
                runlevel: read,
                left: ReadCycles(left),
                ..now
            };
            Heard::nothing(counted, 1)
        }
        Mode::Waiting => {
            let run = longer(now.run.0, now.runlevel, read);
            if run == q {
                return Heard::broken(settings.q, found, read, 1);
            }
            if read == level {
                let waited = Numbers {
                    run: ReadCycles(run),
                    runlevel: read,
                    ..now
                };
                return Heard::nothing(waited, 1);
            }
            let marked = Numbers::marked(settings.k, ReadCycles(run), read, found);
            Heard::nothing(marked, 1)
        }
    }
}
