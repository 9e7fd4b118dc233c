// The three passes of the line.
use crate::numbers::{MOST, numbers};
use cases::{reading, show};
use line::{Bounds, Timing};
use measure::{TimeUnits, WriterCycles};
use std::io;

// g, and the wave
pub fn smooth(rt: &impl Print, case: &[u8], wave: &[u8], out: &mut [u8]) -> io::Result<usize> {
    let [g] = reading::numbers_of::<1>(case);
    show::written(rt, line::smooth(wave, WriterCycles(g), out))
}

// w r p, and the wave
pub fn warp(rt: &impl Print, case: &[u8], wave: &[u8], out: &mut [u8]) -> io::Result<usize> {
    let [w, r, p] = reading::numbers_of::<3>(case);
    let timing = Timing {
        w: TimeUnits(w),
        r: TimeUnits(r),
        p: TimeUnits(p),
    };
    show::written(rt, line::warp(wave, timing, out))
}

fn bounds(least: usize, most: usize) -> Bounds {
    Bounds {
        least: TimeUnits(least),
        most: TimeUnits(most),
    }
}

// w1 w2 r1 r2 p, and the wave, the lengths of its cycles and those of the reads
pub fn warp_by_lengths(
    rt: &impl Print,
    case: &[u8],
    wave: &[u8],
    out: &mut [u8],
) -> io::Result<usize> {
    let [w1, w2, r1, r2, p] = reading::numbers_of::<5>(case);
    let w = bounds(w1, w2);
    let r = bounds(r1, r2);
    let first = reading::after(reading::after(case, b'|'), b'|');
    let second = reading::after(first, b'|');
    let (mut cycles, mut reads) = ([0; MOST], [0; MOST]);
    let cycles = numbers(reading::until(first, b'|'), &mut cycles);
    let reads = numbers(second, &mut reads);
    show::written(
        rt,
        line::warp_by_lengths(wave, w, r, TimeUnits(p), cycles, reads, out),
    )
}

// the stream and the choices
pub fn settle(rt: &impl Print, stream: &[u8], choices: &[u8], out: &mut [u8]) -> io::Result<usize> {
    show::written(rt, line::settle(stream, choices, out))
}
