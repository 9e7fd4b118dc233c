// Reading a capture: its numbers, its header, the check of its runs, and its reads.
ghost use Rattle.std.specs.Prelude.{◌≡◌, true, ℕ, [], ◌∷◌, Ok, IfOk, IfErr, ◌+◌, ◌≤◌, ◌<◌, leb, drop, length};
ghost use Rattle.std.specs.Prelude.{replicate};
ghost use Rattle.std.proofs.lemmas.List.Edits.{sets};
ghost use Rattle.measure.specs.Choose.{between as is_between};
ghost use Rattle.measure.specs.Refusals.{given};
ghost use Rattle.capture.specs.Numbers.{before, bound, following, further, group, number_at};
ghost use Rattle.capture.specs.Capture.{fitting_at, four_numbers, header, reads_of_runs, runs_from, then, with_runs};
ghost use Rattle.capture.specs.Answers.{checked, checked_says, fault_at, front_says, head_says, headed, number_says};
ghost use Rattle.capture.specs.Answers.{read_back, summed_up};

use crate::{Header, Number, Summary, TOP_BIT};
use measure::{
    BITS_LEAST, BITS_MOST, CAPTURE_MOST, ENTRIES_MOST, HIGH, QUIET_LEAST, QUIET_MOST, ReadCycles,
    Refusal, RowSettings, SAMPLING_LEAST, SAMPLING_MOST, between,
};

// At most so many bytes follow a number's first, and where all of them do the last is at most this.
const FURTHER: usize = 2;

const LAST_MOST: usize = 127;

// The least length of a run.
const RUN_LEAST: usize = 1;

// The greatest total of the runs.
const TOTAL_MOST: usize = ENTRIES_MOST;

// The number that stands at the front of bytes, whatever their place, and how many bytes it has.
#[derive(Clone, Copy)]
struct Front {
    value: usize,
    size: usize,
}

// Why none stands there: the bytes end before or inside it, or it has a long form or too many bytes.
#[derive(Clone, Copy)]
enum Fault {
    Cut,
    Long,
}

impl Fault {
    // The refusal of the number whose first byte stands at a place.
    fn at(self, place: usize) -> Refusal
        ensures { result ≡ fault_at place self }
    {
        match self {
            Fault::Cut => Refusal::Cut(place),
            Fault::Long => Refusal::Form(place),
        }
    }
}

impl Front {
    // A number after a byte with its top bit set, which has the lowest group.
    fn after(self, byte: usize) -> Front
        requires byte_in_range { (128 ≤ byte) × (byte < 256) }
        requires self_in_range { (self.value < bound further) × (self.size ≤ further) }
        ensures { before byte (front_says (Ok self)) ≡ front_says (Ok result) }
    {
        let low = byte - TOP_BIT;
        Front {
            value: low + TOP_BIT * self.value,
            size: self.size + 1,
        }
    }
}

// The byte at a place.
fn byte_at(bytes: &[u8], at: usize) -> Result<usize, Fault>
    ensures found { IfOk result (λ byte. (drop at bytes.now ≡ byte ∷ drop (at + 1) bytes.now) × (byte < 256)) }
    ensures cut { IfErr result (λ fault. (drop at bytes.now ≡ []) × (fault ≡ Fault.Cut)) }
{
    match bytes.get(at) {
        Some(byte) => Ok(usize::from(*byte)),
        None => Err(Fault::Cut),
    }
}

// A byte that follows another of its number, and at most `more` after it. A last byte of 0 is not the shortest form.
#[tactic(auto, using(crate::proofs::Groups::following_zero_at))]
fn following_at(bytes: &[u8], at: usize, more: usize) -> Result<Front, Fault>
    requires { more < further }
    ensures { following more (drop at bytes.now) ≡ front_says result }
{
    let byte = byte_at(bytes, at)?;
    if byte == 0 {
        return Err(Fault::Long);
    }
    if more == 0 {
        if byte <= LAST_MOST {
            return Ok(Front {
                value: byte,
                size: 1,
            });
        }
        return Err(Fault::Long);
    }
    if byte < TOP_BIT {
        return Ok(Front {
            value: byte,
            size: 1,
        });
    }
    let rest = following_at(bytes, at + 1, more - 1)?;
    Ok(rest.after(byte))
}

// The number whose first byte stands at a place.
fn front_at(bytes: &[u8], at: usize) -> Result<Front, Fault>
    ensures { group further (drop at bytes.now) ≡ front_says result }
{
    let byte = byte_at(bytes, at)?;
    if byte < TOP_BIT {
        return Ok(Front {
            value: byte,
            size: 1,
        });
    }
    let rest = following_at(bytes, at + 1, FURTHER - 1)?;
    Ok(rest.after(byte))
}

// The number at a place, and the place after it. Refuses with 6 where the bytes end inside it or before it, and with 7
// where it is too long or not in shortest form; the refusal's place is the one asked for.
pub fn number_at(bytes: &[u8], at: usize) -> Result<Number, Refusal>
    ensures { number_at bytes.now at ≡ number_says result }
{
    match front_at(bytes, at) {
        Ok(front) => Ok(Number {
            value: front.value,
            after: at + front.size,
        }),
        Err(fault) => Err(fault.at(at)),
    }
}

// The number at a place, which has to lie from `least` to `most`. Refuses with 8 where it does not, and with 6 or 7
// before that.
fn fitting_at(bytes: &[u8], at: usize, least: usize, most: usize) -> Result<Number, Refusal>
    ensures { fitting_at (is_between least most) bytes.now at ≡ number_says result }
{
    let read = number_at(bytes, at);
    let Ok(number) = read else {
        return read;
    };
    if !between(least, most, number.value) {
        return Err(Refusal::Range(at));
    }
    Ok(number)
}

// The first four numbers, with the level's place and the place after it. Refuses with 6 or 7 where one cannot be read
// and with 8 where one is out of range, from the left.
fn four_numbers(bytes: &[u8]) -> Result<Header, Refusal>
    ensures { four_numbers bytes.now ≡ head_says result }
{
    let first = fitting_at(bytes, 0, SAMPLING_LEAST, SAMPLING_MOST);
    let Ok(k) = first else {
        return Err(first.unwrap_err());
    };
    let second = fitting_at(bytes, k.after, BITS_LEAST, BITS_MOST);
    let Ok(n) = second else {
        return Err(second.unwrap_err());
    };
    let third = fitting_at(bytes, n.after, QUIET_LEAST, QUIET_MOST);
    let Ok(q) = third else {
        return Err(third.unwrap_err());
    };
    let fourth = fitting_at(bytes, q.after, 0, usize::from(HIGH));
    let Ok(level) = fourth else {
        return Err(fourth.unwrap_err());
    };
    Ok(Header {
        settings: RowSettings {
            k: ReadCycles(k.value),
            n: n.value,
            q: ReadCycles(q.value),
        },
        level: level.value,
        level_at: q.after,
        after: level.after,
    })
}

// Gives the first four numbers of a capture, with the level's place and the place after it. Refuses with 3 for too many
// bytes, and then, from the left, with 6 or 7 where one cannot be read and with 8 where one is out of range, each at
// the number's first byte.
#[tactic(auto, using(crate::proofs::Captures::header_long))]
pub fn read_header(bytes: &[u8]) -> Result<Header, Refusal>
    ensures { header bytes.now ≡ head_says result }
{
    if CAPTURE_MOST < bytes.len() {
        return Err(Refusal::Limit);
    }
    four_numbers(bytes)
}

// Walks the runs after a header to the end of the file and sums the capture up. Refuses with 6 or 7 where a run cannot
// be read, with 8 for a run of 0 and for the first with which the total is too large, and with 8 at the level's byte
// where the first level is 0 and there is no run.
// Each number says where the next begins, and a refusal names the place, so an iterator would carry both and be no
// plainer than this `while`.
fn check_runs(bytes: &[u8], head: Header) -> Result<Summary, Refusal>
    ensures { summed_up (then (runs_from 0 bytes.now head.after) (with_runs (headed head)))
        ≡ checked_says result }
{
    let mut at = head.after;
    let mut left = TOTAL_MOST;
    let mut runs: usize = 0;
    while at < bytes.len() {
        let read = fitting_at(bytes, at, RUN_LEAST, left);
        let Ok(run) = read else {
            return Err(read.unwrap_err());
        };
        left -= run.value;
        runs += 1;
        at = run.after;
    }
    if head.level == 0 && runs == 0 {
        return Err(Refusal::Range(head.level_at));
    }
    Ok(Summary {
        settings: head.settings,
        reads: ReadCycles(TOTAL_MOST - left),
        runs: runs,
    })
}

// Tells whether bytes are a capture, and sums it up: its settings, and how many reads and runs it has. Refuses with 3
// for too many bytes, and then with the first of 6, 7 and 8 from the left.
pub fn check(bytes: &[u8]) -> Result<Summary, Refusal>
    ensures { checked bytes.now ≡ checked_says result }
{
    let head = read_header(bytes)?;
    check_runs(bytes, head)
}

// Stores a level in each entry. The slice's own `fill` stores the last entry apart, which costs more for each run.
fn fill(entries: &mut [u8], level: u8)
    ensures { entries.new ≡ replicate (length entries.old) level }
{
    for entry in entries {
        *entry = level;
    }
}

// Stores the reads of a checked capture, whose runs begin at a place, at the front of an output that has room for them.
// It walks them as `check_runs` does.
fn unroll_into(bytes: &[u8], from: usize, level: u8, out: &mut [u8])
    requires level_bound { level ≤ 1 }
    requires out_value { then (runs_from 0 bytes.now from)
        (λ runs. given (leb (length (reads_of_runs level runs)) (length out.old))) ≡ given true }
    ensures { then (runs_from 0 bytes.now from)
        (λ runs. given (sets out.old 0 (reads_of_runs level runs))) ≡ given out.new }
{
    let mut at = from;
    let mut done = 0;
    let mut current = level;
    while at < bytes.len() {
        let Ok(run) = number_at(bytes, at) else {
            return;
        };
        let end = done + run.value;
        fill(&mut out[done..end], current);
        done = end;
        current = HIGH - current;
        at = run.after;
    }
}

// Reads a capture: sums it up, and puts its reads, one byte each, at the front of the lent output. Refuses as `check`
// does, and last with 4 where the output is shorter than the reads. After a refusal the output is untouched, and after
// success what lies beyond the reads.
pub fn read_capture(bytes: &[u8], out: &mut [u8]) -> Result<Summary, Refusal>
    ensures { read_back bytes.now out.old ≡ (checked_says result, out.new) }
{
    let head = read_header(bytes)?;
    let summary = check_runs(bytes, head)?;
    let reads = summary.reads.0;
    if out.len() < reads {
        return Err(Refusal::Room);
    }
    // `as` cuts nothing off, as is proved; `u8::try_from` would only add an arm that never runs.
    let level = head.level as u8;
    unroll_into(bytes, head.after, level, out);
    Ok(summary)
}
