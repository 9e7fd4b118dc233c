// A receiver's numbers as C lends them, each at a place of its own. Its bits stay where they are lent.
ghost use Rattle.std.specs.Prelude.{◌≡◌, true, false, List, [], ℕ, ◌≤◌, ◌<◌, MatchOption};
ghost use Rattle.board.specs.Packed.{whole};
ghost use Rattle.siengulot.specs.Receivers.{mode_of, named, numbers_of, numbers_fit, receiver_lent};

use board::{Bare, Mode, Numbers};
use measure::{ReadCycles, RowSettings};

// Where each number stands: `enum siengulot_number` of the header.
const K: usize = 0;

const N: usize = 1;

const Q: usize = 2;

const MODE: usize = 3;

const RUN: usize = 4;

const RUN_LEVEL: usize = 5;

const LEFT: usize = 6;

const LEVEL: usize = 7;

const FOUND: usize = 8;

// How many numbers there are.
pub const NUMBERS: usize = 9;

// Gives the mode that a number names, if it does.
fn mode_of(number: usize) -> Option<Mode>
    ensures { MatchOption result (3 < number) (λ mode. (number ≤ 3) × (mode_of number ≡ mode)) }
{
    match number {
        0 => Some(Mode::Hunting),
        1 => Some(Mode::Ready),
        2 => Some(Mode::Counting),
        3 => Some(Mode::Waiting),
        _ => None,
    }
}

// Gives the byte that a number is, if it is one.
fn byte(number: usize) -> Option<u8>
    ensures { MatchOption result (255 < number) (λ byte. (number ≤ 255) × (byte ≡ number)) }
{
    u8::try_from(number).ok()
}

// Gives the receiver that numbers make, without its bits, where they make one.
pub fn bare_lent(numbers: &[usize; NUMBERS]) -> Option<Bare>
    ensures { MatchOption result (numbers_fit (named numbers.now) ≡ false)
        (λ bare. (numbers_fit (named numbers.now) ≡ true)
        × ((bits : List ℕ) → receiver_lent (named numbers.now) bits ≡ whole bare bits)) }
{
    let mode = mode_of(numbers[MODE])?;
    let runlevel = byte(numbers[RUN_LEVEL])?;
    let level = byte(numbers[LEVEL])?;
    Some(Bare {
        settings: RowSettings {
            k: ReadCycles(numbers[K]),
            n: numbers[N],
            q: ReadCycles(numbers[Q]),
        },
        numbers: Numbers {
            mode,
            run: ReadCycles(numbers[RUN]),
            runlevel,
            left: ReadCycles(numbers[LEFT]),
            level,
            found: numbers[FOUND],
        },
    })
}

// Puts a receiver's numbers back where they are lent, in their order.
pub fn put_back(next: Bare, numbers: &mut [usize; NUMBERS])
    ensures { numbers_of (whole next []) ≡ numbers.new }
{
    let settings = next.settings;
    let kept = next.numbers;
    *numbers = [
        settings.k.0,
        settings.n,
        settings.q.0,
        kept.mode.number(),
        kept.run.0,
        usize::from(kept.runlevel),
        kept.left.0,
        usize::from(kept.level),
        kept.found,
    ];
}
