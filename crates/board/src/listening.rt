// Listening: a loop for each mode, which runs to the next read that matters to it. The bits are in lent bytes, which
// are touched only where a bit is found.
ghost use Rattle.std.specs.Prelude.{None, Some, ◌≡◌, true, [], ◌∷◌, ◌++◌, ◌+◌, ◌^◌, ◌≤◌, ◌<◌, length};
ghost use Rattle.board.specs.declared.Mode.TheVariants.{Counting, Waiting};
ghost use Rattle.board.specs.declared.Event.TheVariants.{Row, Broken};
ghost use Rattle.board.specs.Rows.{run_of, hunting, ready, counting, waiting, collected, marked};
ghost use Rattle.board.specs.Packed.{kept, whole, rules_of, state_of};
ghost use Rattle.board.specs.Listening.{hunting_at, ready_at, Keeps, longer as longer_run, Seeks, Hears};
ghost use Rattle.measure.specs.Ranges.{row_settings_fit};
ghost use Rattle.measure.specs.Cells.{bit_of};

use crate::state::put;
use crate::{Bare, Event, Mode, Numbers};
use measure::{HIGH, ReadCycles, Refusal, RowSettings};
use std::ops::ControlFlow;

// What reads brought, up to the first event or the end: the numbers then, the event, and the reads used. The bits are
// in the lent bytes, a row's bits too.
#[derive(Clone, Copy)]
pub struct Heard {
    pub numbers: Numbers,
    pub event: Option<Event>,
    pub used: ReadCycles,
}

// The read that a search finds: the reads used with it, the run with it, and its level.
#[derive(Clone, Copy)]
struct Found {
    used: usize,
    run: ReadCycles,
    level: u8,
}

// The run after a read, where it was below Q before and so cannot pass it.
pub fn longer(run: usize, runlevel: u8, read: u8) -> usize
    requires { run + 1 < 2 ^ 64 }
    ensures { longer_run run runlevel read ≡ result }
{
    if read == runlevel { run + 1 } else { 1 }
}

impl Heard {
    // Nothing.
    pub fn nothing(numbers: Numbers, used: usize) -> Heard
        ensures { result ≡ record { numbers = numbers; event = None; used = record { 0 = used } } }
    {
        Heard {
            numbers,
            event: None,
            used: ReadCycles(used),
        }
    }

    // A row, with the sample of its last bit.
    pub fn row(run: ReadCycles, sample: u8, used: usize) -> Heard
        ensures { result ≡ record { numbers = hunting_at run sample; event = Some Row; used = record { 0 = used } } }
    {
        Heard {
            numbers: Numbers::hunting(run, sample),
            event: Some(Event::Row),
            used: ReadCycles(used),
        }
    }

    // A row in progress that quiet of this level breaks.
    pub fn broken(q: ReadCycles, found: usize, level: u8, used: usize) -> Heard
        ensures { result
            ≡ record { numbers = ready_at q level; event = Some (Broken found); used = record { 0 = used } } }
    {
        Heard {
            numbers: Numbers::ready(q, level),
            event: Some(Event::Broken(found)),
            used: ReadCycles(used),
        }
    }
}

// Counting: searches for the sample from a place on. The loops over reads are `while`, since they run for every read of
// a line: a quiet read takes 6 instructions, 8 with `for` over a range and 7 with `position`, and a random one takes
// 14, 15 with `for`.
fn to_sample(
    reads: &[u8],
    from: usize,
    start: Numbers,
    settings: RowSettings,
) -> ControlFlow<Result<Heard, Refusal>, Found>
    requires room { (from ≤ length reads.now) × (start.run.0 < settings.q.0) × (1 ≤ start.left.0) }
    requires mode_value { start.mode ≡ Counting }
    ensures { Seeks (rules_of settings) start.found from reads.now
        (λ bits. counting start.left.0 start.level (run_of start.run.0 start.runlevel) bits)
        (λ bits run read. collected (rules_of settings) run read (bits ++ bit_of start.level read ∷ []))
        result }
{
    let q = settings.q.0;
    let mut run = start.run.0;
    let mut runlevel = start.runlevel;
    let mut left = start.left.0;
    let mut i = from;
    while i < reads.len() {
        let read = reads[i];
        if HIGH < read {
            return ControlFlow::Break(Err(Refusal::Entry(i)));
        }
        i += 1;
        left -= 1;
        run = longer(run, runlevel, read);
        runlevel = read;
        if run == q {
            let heard = Heard::broken(settings.q, start.found, read, i);
            return ControlFlow::Break(Ok(heard));
        }
        if left == 0 {
            let run = ReadCycles(run);
            return ControlFlow::Continue(Found {
                used: i,
                run,
                level: read,
            });
        }
    }
    let numbers = Numbers {
        run: ReadCycles(run),
        runlevel,
        left: ReadCycles(left),
        ..start
    };
    let heard = Heard::nothing(numbers, reads.len());
    ControlFlow::Break(Ok(heard))
}

// Waiting: searches for the mark from a place on. A `while`, as in `to_sample`, and apart from it: each turn there
// counts the reads left, which are 0 here. What the two have in common is proved once (`board:proofs/SearchLaws`).
fn to_mark(
    reads: &[u8],
    from: usize,
    start: Numbers,
    settings: RowSettings,
) -> ControlFlow<Result<Heard, Refusal>, Found>
    requires room { (from ≤ length reads.now) × (start.run.0 < settings.q.0) × (start.left.0 ≡ 0) }
    requires mode_value { start.mode ≡ Waiting }
    ensures { Seeks (rules_of settings) start.found from reads.now
        (λ bits. waiting start.level (run_of start.run.0 start.runlevel) bits)
        (λ bits run read.
        marked (rules_of settings) (waiting start.level (run_of start.run.0 start.runlevel) bits) run read)
        result }
{
    let q = settings.q.0;
    let level = start.level;
    let mut run = start.run.0;
    let mut runlevel = start.runlevel;
    let mut i = from;
    while i < reads.len() {
        let read = reads[i];
        if HIGH < read {
            return ControlFlow::Break(Err(Refusal::Entry(i)));
        }
        i += 1;
        run = longer(run, runlevel, read);
        runlevel = read;
        if run == q {
            let heard = Heard::broken(settings.q, start.found, read, i);
            return ControlFlow::Break(Ok(heard));
        }
        if read != level {
            let run = ReadCycles(run);
            return ControlFlow::Continue(Found {
                used: i,
                run,
                level: read,
            });
        }
    }
    let numbers = Numbers {
        run: ReadCycles(run),
        runlevel,
        ..start
    };
    let heard = Heard::nothing(numbers, reads.len());
    ControlFlow::Break(Ok(heard))
}

// Listens from a place on in counting, cell by cell: to the sample, whose bit is put, and on to the next mark.
fn from_counting(
    reads: &[u8],
    from: usize,
    bits: &mut [u8; 128],
    start: Bare,
) -> Result<Heard, Refusal>
    requires keeps { Keeps (rules_of start.settings) start.numbers bits.old }
    requires mode_value { (start.numbers.mode ≡ Counting) × (from ≤ length reads.now) }
    ensures { Hears (rules_of start.settings) (state_of (whole start bits.old)) from reads.now bits.new result }
{
    let settings = start.settings;
    let n = settings.n;
    let mut at = from;
    let mut numbers = start.numbers;
    loop {
        let sample = match to_sample(reads, at, numbers, settings) {
            ControlFlow::Break(end) => return end,
            ControlFlow::Continue(found) => found,
        };
        put(bits, numbers.found, numbers.level, sample.level);
        let found = numbers.found + 1;
        if found == n {
            return Ok(Heard::row(sample.run, sample.level, sample.used));
        }
        let sampled = Numbers::sampled(sample.run, sample.level, found);
        let mark = match to_mark(reads, sample.used, sampled, settings) {
            ControlFlow::Break(end) => return end,
            ControlFlow::Continue(found) => found,
        };
        at = mark.used;
        numbers = Numbers::marked(settings.k, mark.run, mark.level, found);
    }
}

// Listens in waiting: on to the mark, and from there in counting.
fn from_waiting(reads: &[u8], bits: &mut [u8; 128], start: Bare) -> Result<Heard, Refusal>
    requires keeps { Keeps (rules_of start.settings) start.numbers bits.old }
    requires mode_value { start.numbers.mode ≡ Waiting }
    ensures { Hears (rules_of start.settings) (state_of (whole start bits.old)) 0 reads.now bits.new result }
{
    let settings = start.settings;
    match to_mark(reads, 0, start.numbers, settings) {
        ControlFlow::Break(end) => end,
        ControlFlow::Continue(mark) => {
            let numbers = Numbers::marked(settings.k, mark.run, mark.level, start.numbers.found);
            from_counting(reads, mark.used, bits, Bare { settings, numbers })
        }
    }
}

// Listens from a place on in ready: past the reads of the quiet's level, and from another in counting. A `while`, as in
// `to_sample`.
// It is inlined in both its callers, so that listening keeps to the 640 bytes of stack that C is promised.
#[inline(always)]
fn from_ready(
    reads: &[u8],
    from: usize,
    bits: &mut [u8; 128],
    quiet: u8,
    settings: RowSettings,
) -> Result<Heard, Refusal>
    requires { (row_settings_fit settings.k.0 settings.n settings.q.0 ≡ true) × (kept [] ≡ bits.old)
        × (from ≤ length reads.now) × (quiet ≤ 1) }
    ensures { Hears (rules_of settings) (ready settings.q.0 quiet) from reads.now bits.new result }
{
    let mut i = from;
    while i < reads.len() {
        let read = reads[i];
        if read != quiet {
            if HIGH < read {
                return Err(Refusal::Entry(i));
            }
            let numbers = Numbers::marked(settings.k, ReadCycles(1), read, 0);
            return from_counting(reads, i + 1, bits, Bare { settings, numbers });
        }
        i += 1;
    }
    Ok(Heard::nothing(Numbers::ready(settings.q, quiet), reads.len()))
}

// Listens in hunting: until the run is q, and from there in ready. A `while`, as in `to_sample`.
fn from_hunting(reads: &[u8], bits: &mut [u8; 128], start: Bare) -> Result<Heard, Refusal>
    requires { (row_settings_fit start.settings.k.0 start.settings.n start.settings.q.0 ≡ true) × (kept [] ≡ bits.old)
        × (start.numbers.run.0 < start.settings.q.0) }
    ensures { Hears (rules_of start.settings) (hunting (run_of start.numbers.run.0 start.numbers.runlevel)) 0 reads.now
        bits.new result }
{
    let settings = start.settings;
    let q = settings.q.0;
    let mut equal = start.numbers.run.0;
    let mut level = start.numbers.runlevel;
    let mut i = 0;
    while i < reads.len() {
        let read = reads[i];
        if HIGH < read {
            return Err(Refusal::Entry(i));
        }
        i += 1;
        equal = longer(equal, level, read);
        level = read;
        if equal == q {
            return from_ready(reads, i, bits, read, settings);
        }
    }
    Ok(Heard::nothing(Numbers::hunting(ReadCycles(equal), level), reads.len()))
}

// Listens to reads until the first event, the first read that is no level, or the end.
pub fn hear(reads: &[u8], bits: &mut [u8; 128], start: Bare) -> Result<Heard, Refusal>
    requires { Keeps (rules_of start.settings) start.numbers bits.old }
    ensures { Hears (rules_of start.settings) (state_of (whole start bits.old)) 0 reads.now bits.new result }
{
    match start.numbers.mode {
        Mode::Hunting => from_hunting(reads, bits, start),
        Mode::Ready => from_ready(reads, 0, bits, start.numbers.runlevel, start.settings),
        Mode::Counting => from_counting(reads, 0, bits, start),
        Mode::Waiting => from_waiting(reads, bits, start),
    }
}
