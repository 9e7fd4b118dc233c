// Time code: from decoded bits to times, and from a time to the bits of its word.
ghost use Rattle.std.specs.Prelude.{◌≡◌, false, MatchOption};
ghost use Rattle.timecode.specs.Times.{time_fits};
ghost use Rattle.timecode.specs.Answers.{read_times, read_says, write_time};
ghost use Rattle.siengulot.specs.Crossing.{crossed, crossing};

use crate::answers::{crosses, gives, refuses};
use measure::Refusal;
use timecode::{Stop, Time};

// The number of refusal 10, which is no case of a refusal.
const BAD_WORD: usize = 10;

// What reading answers: also after refusal 10 the count is of the times listed.
fn of_times(answer: Result<usize, Stop>, place: &mut usize, count: &mut usize) -> usize
    ensures { crossed (read_says answer) ≡ (result, place.new, count.new) }
{
    match answer {
        Ok(listed) => gives(listed, place, count),
        Err(Stop::BadWord { at, words }) => {
            *place = at;
            *count = words;
            BAD_WORD
        }
        Err(Stop::Refused(refusal)) => refuses(refusal, place, count),
    }
}

// Gives the time that four numbers are, where each of them is a byte.
fn time_of(hours: usize, minutes: usize, seconds: usize, frames: usize) -> Option<Time>
    ensures { MatchOption result (time_fits hours minutes seconds frames ≡ false)
        (λ time. (time.hours ≡ hours) × (time.minutes ≡ minutes) × (time.seconds ≡ seconds)
        × (time.frames ≡ frames)) }
{
    Some(Time {
        hours: u8::try_from(hours).ok()?,
        minutes: u8::try_from(minutes).ok()?,
        seconds: u8::try_from(seconds).ok()?,
        frames: u8::try_from(frames).ok()?,
    })
}

// Reads time code. Gives the times of the words found, four bytes a word (hours, minutes, seconds, frames), at the
// output's front, and in `count` the number of words.
// Refuses with 3 (more than 1,048,576 bits), 2 (the place of the first entry that is no bit), 4 (less than four bytes
// for each word): the output is left, and `count` is 0. Then with 10, where a word is bad: `place` is that of its first
// bit, and `count` the number of words before it, whose times stand at the output's front.
pub fn siengulot_time_read(
    bits: &[u8],
    out: &mut [u8],
    place: &mut usize,
    count: &mut usize,
) -> usize
    ensures { crossing crossed (read_times bits.now out.old)
        ≡ ((result, place.new, count.new), out.new) }
{
    let answer = timecode::read_times(bits, out);
    of_times(answer, place, count)
}

// Writes time code. Gives the 80 bits of the word of a time at the output's front, with user bits and flags 0.
// Refuses with 1 (hours, minutes, seconds or frames out of range), then 4: the output is left, and `count` is 0.
pub fn siengulot_time_write(
    hours: usize,
    minutes: usize,
    seconds: usize,
    frames: usize,
    out: &mut [u8],
    place: &mut usize,
    count: &mut usize,
) -> usize
    ensures { crossing crossed (write_time hours minutes seconds frames out.old)
        ≡ ((result, place.new, count.new), out.new) }
{
    let Some(time) = time_of(hours, minutes, seconds, frames) else {
        return refuses(Refusal::Setting(0), place, count);
    };
    let answer = timecode::write_time(time, out);
    crosses(answer, place, count)
}
