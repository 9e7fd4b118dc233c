// The capture file: checked, read and written.
use capture::Summary;
use cases::{reading, show};
use measure::{ReadCycles, Refusal, RowSettings};
use std::io;

// The settings and the reads that a capture has.
fn checked(rt: &impl Print, answer: Result<Summary, Refusal>) -> io::Result<usize> {
    match answer {
        Ok(summary) => {
            show::count(rt, summary.settings.k.0)?;
            show::count(rt, summary.settings.n)?;
            show::count(rt, summary.settings.q.0)?;
            show::count(rt, summary.reads.0)?;
            Ok(summary.reads.0)
        }
        Err(refusal) => {
            show::refused(rt, refusal)?;
            Ok(0)
        }
    }
}

// the bytes
pub fn check(rt: &impl Print, bytes: &[u8]) -> io::Result<usize> {
    checked(rt, capture::check(bytes))?;
    Ok(0)
}

// the bytes
pub fn read_capture(rt: &impl Print, bytes: &[u8], out: &mut [u8]) -> io::Result<usize> {
    checked(rt, capture::read_capture(bytes, out))
}

pub fn settings(k: usize, n: usize, q: usize) -> RowSettings {
    RowSettings {
        k: ReadCycles(k),
        n,
        q: ReadCycles(q),
    }
}

// k n Q, and the reads
pub fn write_capture(
    rt: &impl Print,
    case: &[u8],
    reads: &[u8],
    out: &mut [u8],
) -> io::Result<usize> {
    let [k, n, q] = reading::numbers_of::<3>(case);
    show::written(rt, capture::write_capture(settings(k, n, q), reads, out))
}
