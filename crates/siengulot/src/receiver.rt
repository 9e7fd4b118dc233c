// The row receiver: starting, one read, and reads up to the first event, on a receiver that C lends.
ghost use Rattle.std.specs.Prelude.{◌≡◌, List, ℕ};
ghost use Rattle.board.specs.Packed.{whole};
ghost use Rattle.board.specs.Answers.{begun, event_says};
ghost use Rattle.siengulot.specs.Receivers.{handed, no_receiver, stepped_lent, listened_lent, well_formed_lent};
ghost use Rattle.siengulot.specs.Receivers.{begun_lent};

use crate::answers::flag;
use crate::state::{NUMBERS, bare_lent, put_back};
use board::{Bare, Event, Receiver};
use measure::{ReadCycles, Refusal, RowSettings};

// The numbers of the events: `enum siengulot_event` of the header.
const NOTHING: usize = 0;

const ROW: usize = 1;

const BROKEN: usize = 2;

// Hands over what reads brought, where bits and row are in place already: the next numbers and the event. A refusal
// leaves the numbers as they are lent.
fn hand_over(
    next: Bare,
    came: Result<Option<Event>, Refusal>,
    numbers: &mut [usize; NUMBERS],
    event: &mut usize,
    found: &mut usize,
    place: &mut usize,
) -> usize
    ensures { (bits row : List ℕ)
        → handed numbers.old (whole next bits) (event_says next.settings.n row came)
        ≡ (
          record { number = result; place = place.new; event = event.new; found = found.new },
          numbers.new,
        ) }
{
    *event = NOTHING;
    *found = 0;
    *place = 0;
    match came {
        Ok(None) => {
            put_back(next, numbers);
            0
        }
        Ok(Some(Event::Row)) => {
            put_back(next, numbers);
            *event = ROW;
            0
        }
        Ok(Some(Event::Broken(dropped))) => {
            put_back(next, numbers);
            *event = BROKEN;
            *found = dropped;
            0
        }
        Err(refusal) => {
            *place = refusal.place();
            refusal.number()
        }
    }
}

// Hands over refusal 1 of numbers that make no receiver.
fn no_receiver(event: &mut usize, found: &mut usize, place: &mut usize) -> usize
    ensures { no_receiver
        ≡ record { number = result; place = place.new; event = event.new; found = found.new } }
{
    *event = NOTHING;
    *found = 0;
    *place = 0;
    Refusal::Setting(0).number()
}

// Starts a receiver: hunting, run 0, no bits, in the lent numbers and bytes.
// Refuses with 1 k, n or Q out of range: every lent number and byte is then 0.
pub fn siengulot_fresh(
    k: usize,
    n: usize,
    q: usize,
    numbers: &mut [usize; NUMBERS],
    bytes: &mut [u8; 128],
) -> usize
    ensures { begun_lent (begun k n q) ≡ (result, numbers.new, bytes.new) }
{
    let settings = RowSettings {
        k: ReadCycles(k),
        n,
        q: ReadCycles(q),
    };
    let started = Receiver::fresh(settings);
    put_back(started.receiver.bare, numbers);
    let bits = started.receiver.bits;
    *bytes = bits;
    match started.start {
        Ok(()) => 0,
        Err(refusal) => refusal.number(),
    }
}

// Tells whether a lent state is well formed: 1 for yes, 0 for no. Refuses nothing and writes nothing.
pub fn siengulot_well_formed(numbers: &[usize; NUMBERS], bytes: &[u8; 128]) -> usize
    ensures { well_formed_lent numbers.now bytes.now ≡ result }
{
    let Some(bare) = bare_lent(numbers) else {
        return 0;
    };
    flag(bare.well_formed(bytes))
}

// Gives a receiver one read, and in `event` what it brings: 0 nothing, 1 a row, whose bits stand in `row`, 2 a broken
// row, of so many bits in `found`.
// Refuses with 1 a state that is not well formed, with 2 a read that is no level, with place 0: receiver and row are
// left, and `event` and `found` are 0.
pub fn siengulot_step(
    numbers: &mut [usize; NUMBERS],
    bytes: &mut [u8; 128],
    read: u8,
    row: &mut [u8; 128],
    event: &mut usize,
    found: &mut usize,
    place: &mut usize,
) -> usize
    ensures { stepped_lent
        (record { numbers = numbers.entry.now; bytes = bytes.old; row = row.old }) read
        ≡ (
          record { number = result; place = place.new; event = event.new; found = found.new },
          record { numbers = numbers.exit.now; bytes = bytes.new; row = row.new },
        ) }
{
    let Some(bare) = bare_lent(numbers) else {
        return no_receiver(event, found, place);
    };
    let told = bare.step(read, bytes, row);
    hand_over(told.bare, told.event, numbers, event, found, place)
}

// Gives a receiver reads up to and with the first that brings an event, or all: `event`, `row` and `found` as above,
// and in `used` how many reads that took.
// Refuses with 1 a state that is not well formed, 3 (more than 1,048,576 reads), 2 (the place of the first read that is
// no level where no event comes before it): receiver and row are left, and `event`, `found` and `used` are 0.
pub fn siengulot_listen(
    numbers: &mut [usize; NUMBERS],
    bytes: &mut [u8; 128],
    reads: &[u8],
    row: &mut [u8; 128],
    event: &mut usize,
    found: &mut usize,
    used: &mut usize,
    place: &mut usize,
) -> usize
    ensures { listened_lent
        (record { numbers = numbers.entry.now; bytes = bytes.old; row = row.old })
        reads.now
        ≡ (
          (
            record { number = result; place = place.new; event = event.new; found = found.new },
            record { numbers = numbers.exit.now; bytes = bytes.new; row = row.new },
          ),
          used.new,
        ) }
{
    let Some(bare) = bare_lent(numbers) else {
        *used = 0;
        return no_receiver(event, found, place);
    };
    let told = bare.listen(reads, bytes, row);
    *used = told.used.0;
    hand_over(told.bare, told.event, numbers, event, found, place)
}
