// Captures: what a board has read, kept as four numbers and the lengths of its runs. The types that reading and writing
// share.
#![tactic(auto)]

pub mod held;
mod reading;
mod writing;

ghost use Rattle.std.specs.Prelude.{◌≡◌};

use measure::{ReadCycles, RowSettings};
pub use reading::{check, read_capture, read_header};
pub use writing::write_capture;

// The weight of a byte's top bit: the seven bits below it are a group.
const TOP_BIT: usize = 128;

// A number that stands at a place of a capture, and the place after its last byte.
#[derive(Clone, Copy)]
pub struct Number {
    pub value: usize,
    pub after: usize,
}

// The first four numbers of a capture, the place of the level, and the place of the first run.
#[derive(Clone, Copy)]
pub struct Header {
    pub settings: RowSettings,
    pub level: usize,
    pub level_at: usize,
    pub after: usize,
}

// What a whole capture says of itself: its settings, and how many reads and runs it has.
#[derive(Clone, Copy)]
pub struct Summary {
    pub settings: RowSettings,
    pub reads: ReadCycles,
    pub runs: usize,
}
