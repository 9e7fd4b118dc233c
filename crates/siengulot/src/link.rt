// The link: sending, the three passes of the line, and the counted receiver. Each result stands at the front of the
// lent output, `count` is its length, and the rest of the output is untouched.
ghost use Rattle.std.specs.Prelude.{◌≡◌};
ghost use Rattle.sender.specs.Answers.{sent_message, sent_plan};
ghost use Rattle.line.specs.Answers.{smoothed, warped, warped_by_lengths, settled};
ghost use Rattle.counted.specs.Answers.{counted_bits};
ghost use Rattle.siengulot.specs.Crossing.{crossed, crossing, crossed_bits};

use crate::answers::{crosses, of_counted, refuses};
use line::{Bounds, Timing};
use measure::{ReadCycles, Refusal, TimeUnits, WriterCycles};
use sender::Cell;

// Sends a message. Gives its wave.
// Refuses with 1 (a, b or the pad), 3 (more than 1,024 bits), 2 (the place of the first entry that is no bit), 4: the
// output is left, and `count` is 0.
pub fn siengulot_send(
    a: usize,
    b: usize,
    p1: usize,
    bits: &[u8],
    out: &mut [u8],
    place: &mut usize,
    count: &mut usize,
) -> usize
    ensures { crossing crossed (sent_message a b p1 bits.now out.old)
        ≡ ((result, place.new, count.new), out.new) }
{
    let cell = Cell {
        a: WriterCycles(a),
        b: WriterCycles(b),
    };
    let answer = sender::send(cell, WriterCycles(p1), bits, out);
    crosses(answer, place, count)
}

// Sends a plan: for each row a lead pad, and n bits of the one list of bits. Gives the plan's wave.
// Refuses with 1 (a, b, n or a pad; no row; lists that do not fit one another), 3 (more than 1,024 rows, or 1,048,576
// cycles), 2 (the place of the first entry that is no bit), 4: the output is left, and `count` is 0.
pub fn siengulot_plan(
    a: usize,
    b: usize,
    n: usize,
    leads: &[usize],
    bits: &[u8],
    out: &mut [u8],
    place: &mut usize,
    count: &mut usize,
) -> usize
    ensures { crossing crossed
        (sent_plan a b n leads.now bits.now out.old)
        ≡ ((result, place.new, count.new), out.new) }
{
    let cell = Cell {
        a: WriterCycles(a),
        b: WriterCycles(b),
    };
    let answer = sender::send_plan(cell, n, leads, bits, out);
    crosses(answer, place, count)
}

// Pass 1, smooth. Gives the wave, in which a cycle is unknown if the level changes at it or at one of the g - 1 cycles
// before it.
// Refuses with 1 (g), 3 (more than 1,048,576 cycles), 2 (the place of the first entry that is no level), 4: the output
// is left, and `count` is 0.
pub fn siengulot_smooth(
    g: usize,
    wave: &[u8],
    out: &mut [u8],
    place: &mut usize,
    count: &mut usize,
) -> usize
    ensures { crossing crossed (smoothed g wave.now out.old)
        ≡ ((result, place.new, count.new), out.new) }
{
    let smoothed = line::smooth(wave, WriterCycles(g), out);
    crosses(smoothed, place, count)
}

// Pass 2, warp. Gives the reads of a wave.
// Refuses with 1 (w or r, or p not below w), 3 (more than 1,048,576 cycles or reads), 2 (the place of the first entry
// that is no level and not unknown), 4: the output is left, and `count` is 0.
pub fn siengulot_warp(
    w: usize,
    r: usize,
    p: usize,
    wave: &[u8],
    out: &mut [u8],
    place: &mut usize,
    count: &mut usize,
) -> usize
    ensures { crossing crossed (warped w r p wave.now out.old)
        ≡ ((result, place.new, count.new), out.new) }
{
    let timing = Timing {
        w: TimeUnits(w),
        r: TimeUnits(r),
        p: TimeUnits(p),
    };
    let answer = line::warp(wave, timing, out);
    crosses(answer, place, count)
}

// Pass 2, warp by lengths. Gives the reads of a wave whose cycles and reads have a length each.
// Refuses with 1 (w1, w2, r1 or r2, w1 above w2, r1 above r2, a length out of its bounds, or p not below the first
// writer cycle's length), 3 (more than 1,048,576 cycles, or lengths of cycles or of reads), 2 (the place of the first
// entry of the wave that is no level and not unknown), 4: the output is left, and `count` is 0.
pub fn siengulot_warp_by_lengths(
    w1: usize,
    w2: usize,
    r1: usize,
    r2: usize,
    p: usize,
    cycles: &[usize],
    reads: &[usize],
    wave: &[u8],
    out: &mut [u8],
    place: &mut usize,
    count: &mut usize,
) -> usize
    ensures { crossing crossed (warped_by_lengths w1 w2 r1 r2 p cycles.now reads.now
        wave.now out.old)
        ≡ ((result, place.new, count.new), out.new) }
{
    let w = Bounds {
        least: TimeUnits(w1),
        most: TimeUnits(w2),
    };
    let r = Bounds {
        least: TimeUnits(r1),
        most: TimeUnits(r2),
    };
    let answer = line::warp_by_lengths(wave, w, r, TimeUnits(p), cycles, reads, out);
    crosses(answer, place, count)
}

// Pass 3, settle. Gives the reads with each unknown one made the next choice, or low once choices have run out.
// Refuses with 3 (more than 1,048,576 reads or choices), 2 (the place of the first read that is no level and not
// unknown, or else of the first choice that is no level, in its own list), 4: the output is left, and `count` is 0.
pub fn siengulot_settle(
    reads: &[u8],
    choices: &[u8],
    out: &mut [u8],
    place: &mut usize,
    count: &mut usize,
) -> usize
    ensures { crossing crossed (settled reads.now choices.now out.old)
        ≡ ((result, place.new, count.new), out.new) }
{
    let answer = line::settle(reads, choices, out);
    crosses(answer, place, count)
}

// The counted receiver. Gives the n bits of a message that starts with the level in force.
// Refuses with 1 (k, n or level), 3 (more than 1,048,576 reads), 2 (the place of the first read that is no level), 4
// (an output shorter than n): the output is left, and `count` is 0. Then with 5, where the reads ran out: `count` is
// the number of bits found, which stand at the output's front. With these, and with n bits, `place` is the current
// read.
pub fn siengulot_counted(
    k: usize,
    n: usize,
    level: usize,
    reads: &[u8],
    out: &mut [u8],
    place: &mut usize,
    count: &mut usize,
) -> usize
    ensures { crossing crossed_bits (counted_bits k n level reads.now out.old)
        ≡ ((result, place.new, count.new), out.new) }
{
    let Ok(level) = u8::try_from(level) else {
        return refuses(Refusal::Setting(0), place, count);
    };
    let answer = counted::count_bits(ReadCycles(k), n, level, reads, out);
    of_counted(answer, place, count)
}
