// Lists of numbers that are no bytes: the pads of a plan, and lengths.
ghost use Rattle.std.specs.Prelude.{◌≤◌};

use cases::reading;
use measure::ROWS_MOST;

// No such list is longer: one more than a plan may have pads.
pub const MOST: usize = ROWS_MOST + 1;

// How many entries the list at the start of a text has.
fn count(text: &[u8]) -> usize
    ensures { result ≤ 1025 }
{
    let mut entries = [0u8; MOST];
    reading::list(text, &mut entries)
}

// Puts the list at the start of a text into a lent one, and gives so much of that as the text has. The lent one is an
// array: a `Vec` would need an allocator handed down to here, and an error for want of memory.
pub fn numbers<'a>(text: &[u8], lent: &'a mut [usize; MOST]) -> &'a [usize] {
    reading::number_list(text, lent);
    &lent[..count(text)]
}
