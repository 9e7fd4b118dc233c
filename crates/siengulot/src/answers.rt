// How an answer crosses: the refusal's number is returned, and its place and the count are written to lent numbers.
ghost use Rattle.std.specs.Prelude.{◌≡◌};
ghost use Rattle.measure.specs.Refusals.{given, denied, says};
ghost use Rattle.counted.specs.Answers.{counted_says};
ghost use Rattle.siengulot.specs.Crossing.{crossed, crossed_bits, numbered, flag as flag_of};

use counted::Stop;
use measure::{Count, Refusal};

// The number of refusal 5, which is no case of a refusal.
const RAN_OUT: usize = 5;

// A yes or no.
pub fn flag(yes: bool) -> usize
    ensures { flag_of yes ≡ result }
{
    usize::from(yes)
}

// A result of so many entries.
pub fn gives(length: usize, place: &mut usize, count: &mut usize) -> usize
    ensures { crossed (given length) ≡ (result, place.new, count.new) }
{
    *place = 0;
    *count = length;
    0
}

// A refusal.
pub fn refuses(refusal: Refusal, place: &mut usize, count: &mut usize) -> usize
    ensures { crossed (denied refusal) ≡ (result, place.new, count.new) }
{
    *place = refusal.place();
    *count = 0;
    refusal.number()
}

// An answer that counts something, in whatever unit.
pub fn crosses<T: Count>(answer: Result<T, Refusal>, place: &mut usize, count: &mut usize) -> usize
    ensures { crossed (says T.number answer) ≡ (result, place.new, count.new) }
{
    match answer {
        Ok(counted) => gives(counted.count(), place, count),
        Err(refusal) => refuses(refusal, place, count),
    }
}

// The same, of an operation whose refusals have no place that crosses.
pub fn crosses_alone<T: Count>(answer: Result<T, Refusal>, given: &mut usize) -> usize
    ensures { numbered (says T.number answer) ≡ (result, given.new) }
{
    match answer {
        Ok(counted) => {
            *given = counted.count();
            0
        }
        Err(refusal) => {
            *given = 0;
            refusal.number()
        }
    }
}

// What the counted receiver answers: also after refusal 5 the count is of the bits found, and with both the place is
// that of the current read.
pub fn of_counted(
    answer: Result<counted::Found, Stop>,
    place: &mut usize,
    count: &mut usize,
) -> usize
    ensures { crossed_bits (counted_says answer) ≡ (result, place.new, count.new) }
{
    match answer {
        Ok(found) => {
            *place = found.at;
            *count = found.bits;
            0
        }
        Err(Stop::RanOut(short)) => {
            *place = short.at;
            *count = short.bits;
            RAN_OUT
        }
        Err(Stop::Refused(refusal)) => refuses(refusal, place, count),
    }
}
