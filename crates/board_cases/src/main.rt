// Runs the cases of the file `stdin` through the row receiver, the capture file and the log, and prints each with what
// it gives; the file `stdout` has what that is to be. The crate `cases` says how a case is written.
#![tactic(auto)]

mod capturing;
mod hearing;
mod logging;
mod state;

use board::Mode;
use cases::{reading, show};
use input::read_full;
use measure::CAPTURE_MOST;
use std::io;

// The cases have so many bytes at most.
const INPUT: usize = 65536;

// No list of a case is longer: one entry more than the longest capture.
const LIST: usize = CAPTURE_MOST + 1;

// Runs the operation that a case names, and gives how many entries it has written. The name of a mode is the operation
// of a state in that mode: it takes one read, and listens.
fn operate(rt: &impl Print, case: &[u8], list: &[u8], out: &mut [u8]) -> io::Result<usize> {
    match reading::operation(case) {
        b"check" => capturing::check(rt, list),
        b"read_capture" => capturing::read_capture(rt, list, out),
        b"write_capture" => capturing::write_capture(rt, case, list, out),
        b"fresh" => hearing::fresh(rt, case),
        b"hear" => hearing::hear(rt, list),
        b"hunting" => hearing::tried(rt, Mode::Hunting, case, list),
        b"ready" => hearing::tried(rt, Mode::Ready, case, list),
        b"counting" => hearing::tried(rt, Mode::Counting, case, list),
        b"waiting" => hearing::tried(rt, Mode::Waiting, case, list),
        b"log_event" => logging::log_event(rt, case, list),
        b"log_clear" => logging::log_clear(rt, case),
        b"log_list" => logging::log_list(rt, case),
        _ => Ok(0),
    }
}

// Runs a case on its list, into an output with so much room as it says.
fn run(rt: &impl Print, case: &[u8], list: &[u8], lent: &mut [u8]) -> io::Result<usize> {
    let room = reading::room(case, lent);
    let made = operate(rt, case, list, &mut lent[..room])?;
    show::end(rt, lent, room)?;
    Ok(made)
}

// Takes a line: runs its case, if it is one, and gives how many entries of the output are written.
fn line(
    rt: &impl Print,
    text: &[u8],
    before: usize,
    list: &mut [u8],
    out: &mut [u8],
) -> io::Result<usize> {
    if !reading::is_case(text) {
        return Ok(before);
    }
    show::case(rt, text)?;
    let size = reading::list_or_out(reading::after(text, b'|'), out, before, list);
    run(rt, text, reading::front(list, size), out)
}

// Takes a text line by line.
fn lines(rt: &impl Print, text: &[u8], list: &mut [u8], out: &mut [u8]) -> io::Result<()> {
    let mut made = 0;
    for case in text.split(|sign| *sign == b'\n') {
        made = line(rt, case, made, list, out)?;
    }
    Ok(())
}

// Reads the cases into a lent list, and takes them.
fn start(
    rt: &(impl Input + Print),
    input: &mut [u8],
    list: &mut [u8],
    out: &mut [u8],
) -> io::Result<()> {
    let size = read_full(&mut rt.reader(), input)?;
    lines(rt, &input[..size], list, out)
}

fn main(rt: HostRuntime) -> io::Result<()> {
    let mut input = [0u8; INPUT];
    let mut list = [0u8; LIST];
    let mut out = [0u8; LIST];
    start(&rt, &mut input, &mut list, &mut out)
}
