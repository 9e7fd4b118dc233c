// Captures: checking, reading and writing one.
ghost use Rattle.std.specs.Prelude.{◌≡◌};
ghost use Rattle.capture.specs.Answers.{checked, read_back, checked_says, written};
ghost use Rattle.siengulot.specs.Crossing.{crossed, crossing, summed};

use crate::answers::crosses;
use capture::Summary;
use measure::{ReadCycles, Refusal, RowSettings};

// What checking and reading answer: the summary is written to the lent numbers, and a refusal leaves these.
fn of_checked(
    answer: Result<Summary, Refusal>,
    summary: &mut [usize; 5],
    place: &mut usize,
) -> usize
    ensures { summed summary.old (checked_says answer)
        ≡ (result, place.new, summary.new) }
{
    match answer {
        Ok(s) => {
            *summary = [
                s.settings.k.0,
                s.settings.n,
                s.settings.q.0,
                s.reads.0,
                s.runs,
            ];
            *place = 0;
            0
        }
        Err(refusal) => {
            *place = refusal.place();
            refusal.number()
        }
    }
}

// Checks a capture. Gives in `summary` its k, n and Q and its numbers of reads and runs.
// Refuses with 3 (too many bytes), then with the first of 6, 7 and 8 from the left, at its place: `summary` is left.
pub fn siengulot_capture_check(bytes: &[u8], summary: &mut [usize; 5], place: &mut usize) -> usize
    ensures { summed summary.old (checked bytes.now)
        ≡ (result, place.new, summary.new) }
{
    let checked = capture::check(bytes);
    of_checked(checked, summary, place)
}

// Reads a capture. Gives its summary, as above, and its reads at the output's front, the rest of which is untouched.
// Refuses as `siengulot_capture_check` does, and last with 4: `summary` and the output are left.
pub fn siengulot_capture_read(
    bytes: &[u8],
    out: &mut [u8],
    summary: &mut [usize; 5],
    place: &mut usize,
) -> usize
    ensures { crossing (summed summary.old) (read_back bytes.now out.old)
        ≡ ((result, place.new, summary.new), out.new) }
{
    let read = capture::read_capture(bytes, out);
    of_checked(read, summary, place)
}

// Writes reads as a capture. Gives in `count` its number of bytes, which stand at the output's front; the rest is
// untouched.
// Refuses with 1 (k, n or Q), 3 (more than 1,048,576 reads), 2 (the place of the first entry that is no level), 4: the
// output is left, and `count` is 0.
pub fn siengulot_capture_write(
    k: usize,
    n: usize,
    q: usize,
    reads: &[u8],
    out: &mut [u8],
    place: &mut usize,
    count: &mut usize,
) -> usize
    ensures { crossing crossed (written k n q reads.now out.old)
        ≡ ((result, place.new, count.new), out.new) }
{
    let settings = RowSettings {
        k: ReadCycles(k),
        n,
        q: ReadCycles(q),
    };
    let answer = capture::write_capture(settings, reads, out);
    crosses(answer, place, count)
}
