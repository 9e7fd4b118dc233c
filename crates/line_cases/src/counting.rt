// The counted receiver.
use cases::{reading, show};
use counted::{Found, Stop};
use measure::ReadCycles;
use std::io;

fn counted(rt: &impl Print, answer: Result<Found, Stop>) -> io::Result<usize> {
    match answer {
        Ok(found) => {
            show::count(rt, found.bits)?;
            show::named(rt, b" at ", found.at)?;
            Ok(found.bits)
        }
        Err(Stop::RanOut(found)) => {
            show::named(rt, b" refused 5 at ", found.at)?;
            show::named(rt, b" after ", found.bits)?;
            Ok(found.bits)
        }
        Err(Stop::Refused(refusal)) => {
            show::refused(rt, refusal)?;
            Ok(0)
        }
    }
}

// k n level, and the reads
pub fn count_bits(rt: &impl Print, case: &[u8], reads: &[u8], out: &mut [u8]) -> io::Result<usize> {
    let [k, n, level] = reading::numbers_of::<3>(case);
    counted(
        rt,
        counted::count_bits(ReadCycles(k), n, reading::byte(level), reads, out),
    )
}
