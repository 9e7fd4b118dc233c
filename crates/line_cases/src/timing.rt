// Time code.
use cases::{reading, show};
use std::io;
use timecode::{Stop, Time};

// The bytes of so many times, or of as many as there can be.
fn bytes(times: usize) -> usize {
    4 * (times % 65536)
}

fn read(rt: &impl Print, answer: Result<usize, Stop>) -> io::Result<usize> {
    match answer {
        Ok(words) => {
            show::count(rt, words)?;
            Ok(bytes(words))
        }
        Err(Stop::BadWord { at, words }) => {
            show::named(rt, b" refused 10 at ", at)?;
            show::named(rt, b" after ", words)?;
            Ok(bytes(words))
        }
        Err(Stop::Refused(refusal)) => {
            show::refused(rt, refusal)?;
            Ok(0)
        }
    }
}

// the bits
pub fn read_times(rt: &impl Print, bits: &[u8], out: &mut [u8]) -> io::Result<usize> {
    read(rt, timecode::read_times(bits, out))
}

// hours minutes seconds frames
pub fn write_time(rt: &impl Print, case: &[u8], out: &mut [u8]) -> io::Result<usize> {
    let [hours, minutes, seconds, frames] = reading::numbers_of::<4>(case);
    let time = Time {
        hours: reading::byte(hours),
        minutes: reading::byte(minutes),
        seconds: reading::byte(seconds),
        frames: reading::byte(frames),
    };
    show::written(rt, timecode::write_time(time, out))
}
