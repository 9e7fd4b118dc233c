// The log of a bay: logging an event, clearing a record, listing, on five lists and a count that C lends.
ghost use Rattle.std.specs.Prelude.{◌≡◌};
ghost use Rattle.bay_log.specs.Answers.{logged, cleared, listed, cleared_says};
ghost use Rattle.siengulot.specs.Crossing.{crossing, numbered};
ghost use Rattle.siengulot.specs.Logs.{cleared_over, leaving};

use crate::answers::crosses_alone;
use bay_log::{Event, Log};
use measure::{RECORD_BYTES, RECORDS, Refusal};

// The bytes of all records' bits.
pub const ALL_BYTES: usize = 8192;

// What clearing a record answers.
fn of_cleared(answer: Result<(), Refusal>) -> usize
    ensures { cleared_over (cleared_says answer) ≡ result }
{
    match answer {
        Ok(()) => 0,
        Err(refusal) => refusal.number(),
    }
}

// Logs an event. Gives in `taken` the place of its record: the lowest free one, or the oldest where none is free.
// Refuses with 1 (a bit count above 1,024), 13 (a count that is not that of the broken records), 12 (a read number that
// is not above all in use): the log is left, and `taken` is 0.
pub fn siengulot_log_event(
    number: u64,
    row: &[u8; RECORD_BYTES],
    count: usize,
    mark: u8,
    numbers: &mut [u64; RECORDS],
    bits: &mut [u8; ALL_BYTES],
    counts: &mut [usize; RECORDS],
    broken: &mut [u8; RECORDS],
    free: &mut [u8; RECORDS],
    broken_count: &mut usize,
    taken: &mut usize,
) -> usize
    ensures { leaving numbered (logged number row.now count mark
        (record {
          numbers = numbers.entry.now;
          bits = bits.old;
          counts = counts.old;
          broken = broken.old;
          free = free.old;
          broken_count = broken_count.old;
        }))
        ≡ (
          (result, taken.new),
          record {
            numbers = numbers.exit.now;
            bits = bits.new;
            counts = counts.new;
            broken = broken.new;
            free = free.new;
            broken_count = broken_count.new;
          },
        ) }
{
    let event = Event {
        number,
        bits: row,
        count,
        broken: mark,
    };
    let mut log = Log {
        numbers,
        bits,
        counts,
        broken,
        free,
        broken_count,
    };
    let answer = bay_log::log_event(event, &mut log);
    crosses_alone(answer, taken)
}

// Clears the record at a place, and leaves a free one as it is.
// Refuses with 1 (a place above 63), 13 (a count that is not that of the broken records): the log is left.
pub fn siengulot_log_clear(
    place: usize,
    numbers: &mut [u64; RECORDS],
    bits: &mut [u8; ALL_BYTES],
    counts: &mut [usize; RECORDS],
    broken: &mut [u8; RECORDS],
    free: &mut [u8; RECORDS],
    broken_count: &mut usize,
) -> usize
    ensures { leaving cleared_over (cleared place
        (record {
          numbers = numbers.entry.now;
          bits = bits.old;
          counts = counts.old;
          broken = broken.old;
          free = free.old;
          broken_count = broken_count.old;
        }))
        ≡ (
          result,
          record {
            numbers = numbers.exit.now;
            bits = bits.new;
            counts = counts.new;
            broken = broken.new;
            free = free.new;
            broken_count = broken_count.new;
          },
        ) }
{
    let mut log = Log {
        numbers,
        bits,
        counts,
        broken,
        free,
        broken_count,
    };
    let answer = bay_log::clear(place, &mut log);
    of_cleared(answer)
}

// Lists the places of the records in use in read order, at the front of `places`. Gives in `count` how many they are.
// Refuses with 4: `places` is left, and `count` is 0.
pub fn siengulot_log_list(
    numbers: &[u64; RECORDS],
    free: &[u8; RECORDS],
    places: &mut [usize],
    count: &mut usize,
) -> usize
    ensures { crossing numbered (listed numbers.now free.now places.old)
        ≡ ((result, count.new), places.new) }
{
    let answer = bay_log::list(numbers, free, places);
    crosses_alone(answer, count)
}
