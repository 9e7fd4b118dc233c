// The row receiver: fresh, fed with the reads of a capture, and in any state.
use crate::capturing::settings;
use board::{Bare, Mode, Numbers, Receiver};
use capture::Summary;
use cases::{reading, show};
use measure::ReadCycles;
use std::io;

// The captures that are fed have so many reads at most.
const READS: usize = 20000;

// k n Q
pub fn fresh(rt: &impl Print, case: &[u8]) -> io::Result<usize> {
    let [k, n, q] = reading::numbers_of::<3>(case);
    let started = Receiver::fresh(settings(k, n, q));
    if let Err(refusal) = started.start {
        show::refused(rt, refusal)?;
    }
    crate::state::shown(rt, started.receiver)?;
    Ok(0)
}

// Feeds reads one by one.
fn by_steps(rt: &impl Print, start: Receiver, reads: &[u8]) -> io::Result<Receiver> {
    let n = start.bare.settings.n;
    let mut receiver = start;
    for (i, read) in reads.iter().enumerate() {
        let stepped = receiver.step(*read);
        receiver = stepped.receiver;
        crate::state::reported(rt, i, stepped.event, n, &stepped.row)?;
    }
    Ok(receiver)
}

// Feeds reads as lists, up to each event, which is told with its place: so the loop goes by places. Ends early where
// listening uses no read, as after a refusal.
fn by_lists(rt: &impl Print, start: Receiver, reads: &[u8]) -> io::Result<Receiver> {
    let n = start.bare.settings.n;
    let mut receiver = start;
    let mut at = 0;
    while at < reads.len() {
        let heard = receiver.listen(&reads[at..]);
        let used = heard.used.0;
        if used < 1 {
            return Ok(receiver);
        }
        if reads.len() - at < used {
            return Ok(receiver);
        }
        receiver = heard.receiver;
        at += used;
        crate::state::reported(rt, at - 1, heard.event, n, &heard.row)?;
    }
    Ok(receiver)
}

fn both(rt: &impl Print, summary: Summary, reads: &[u8]) -> io::Result<()> {
    let receiver = Receiver::fresh(summary.settings).receiver;
    crate::state::shown(rt, by_steps(rt, receiver, reads)?)?;
    show::text(rt, b" by lists")?;
    crate::state::shown(rt, by_lists(rt, receiver, reads)?)
}

// the bytes of a capture, whose reads are fed in both ways
pub fn hear(rt: &impl Print, bytes: &[u8]) -> io::Result<usize> {
    let mut reads = [9u8; READS];
    match capture::read_capture(bytes, &mut reads) {
        Ok(summary) => both(rt, summary, reading::front(&reads, summary.reads.0))?,
        Err(refusal) => show::refused(rt, refusal)?,
    }
    Ok(0)
}

// The bytes of a state, which are the second list of a case.
fn packed(case: &[u8]) -> [u8; 128] {
    let mut bits = [0u8; 128];
    reading::list(reading::after(reading::after(case, b'|'), b'|'), &mut bits);
    bits
}

fn stepped(rt: &impl Print, state: Receiver, read: u8) -> io::Result<()> {
    let out = state.step(read);
    show::text(rt, b" step")?;
    crate::state::reported(rt, 0, out.event, state.bare.settings.n, &out.row)?;
    crate::state::shown(rt, out.receiver)
}

fn listened(rt: &impl Print, state: Receiver, reads: &[u8]) -> io::Result<()> {
    let out = state.listen(reads);
    let used = out.used.0;
    let last = used.saturating_sub(1);
    show::text(rt, b" listen")?;
    crate::state::reported(rt, last, out.event, state.bare.settings.n, &out.row)?;
    show::named(rt, b" used ", used)?;
    crate::state::shown(rt, out.receiver)
}

fn formed(rt: &impl Print, state: Receiver) -> io::Result<()> {
    if state.well_formed() {
        show::text(rt, b" well formed")
    } else {
        show::text(rt, b" ill formed")
    }
}

// k n Q run runlevel left level found of a state in this mode, and reads and the state's bytes: it takes the first
// read, if there is one, and listens to all.
pub fn tried(rt: &impl Print, mode: Mode, case: &[u8], reads: &[u8]) -> io::Result<usize> {
    let [k, n, q, run, runlevel, left, level, found] = reading::numbers_of::<8>(case);
    let settings = settings(k, n, q);
    let numbers = Numbers {
        run: ReadCycles(run),
        left: ReadCycles(left),
        found,
        mode,
        runlevel: reading::byte(runlevel),
        level: reading::byte(level),
    };
    let bits = packed(case);
    let state = Receiver {
        bare: Bare { settings, numbers },
        bits,
    };
    formed(rt, state)?;
    if let Some(first) = reads.first() {
        stepped(rt, state, *first)?;
    }
    listened(rt, state, reads)?;
    Ok(0)
}
