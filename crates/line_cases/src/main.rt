// Runs the cases of the file `stdin` through settings, sender, stored, line, counted, halfcells and timecode, and
// prints each with what it gives; the file `stdout` has what that is to be. The crate `cases` says how a case is
// written. The list `kept` is the second list of the case before.
#![tactic(auto)]

mod counting;
mod joining;
mod judging;
mod numbers;
mod passing;
mod sending;
mod timing;
mod words;

use cases::{reading, show};
use input::read_full;
use measure::ENTRIES_MOST;
use std::io;

// The cases have so many bytes at most.
const INPUT: usize = 65536;

// No list of a case is longer: one entry more than an operation takes.
const LIST: usize = ENTRIES_MOST + 1;

// Runs the operation that a case names, and gives how many entries it has written.
fn operate(
    rt: &impl Print,
    case: &[u8],
    one: &[u8],
    two: &[u8],
    out: &mut [u8],
) -> io::Result<usize> {
    match reading::operation(case) {
        b"judge" => judging::judge(rt, case),
        b"judge_quiet" => judging::judge_quiet(rt, case),
        b"judge_ends" => judging::judge_ends(rt, case),
        b"judge_quiet_ends" => judging::judge_quiet_ends(rt, case),
        b"send" => sending::send(rt, case, one, out),
        b"send_plan" => sending::send_plan(rt, case, one, out),
        b"read_plan" => joining::read_plan(rt, case),
        b"smooth" => passing::smooth(rt, case, one, out),
        b"warp" => passing::warp(rt, case, one, out),
        b"warp_by_lengths" => passing::warp_by_lengths(rt, case, one, out),
        b"settle" => passing::settle(rt, one, two, out),
        b"count_bits" => counting::count_bits(rt, case, one, out),
        b"encode" => words::encode(rt, one, out),
        b"decode" => words::decode(rt, one, out),
        b"read_times" => timing::read_times(rt, one, out),
        b"write_time" => timing::write_time(rt, case, out),
        _ => Ok(0),
    }
}

// Runs a case on its lists, into an output with so much room as it says.
fn run(rt: &impl Print, case: &[u8], one: &[u8], two: &[u8], lent: &mut [u8]) -> io::Result<usize> {
    let room = reading::room(case, lent);
    let made = operate(rt, case, one, two, &mut lent[..room])?;
    show::end(rt, lent, room)?;
    Ok(made)
}

// How many entries the second list of the case before has, and what it has written. The lists themselves are lent
// beside this: the borrow checker's proof does not cover three lists of one struct lent at once, nor with a lifetime
// each.
#[derive(Drop)]
struct Sizes {
    two: usize,
    out: usize,
}

// Puts the second list of a case into a lent one, unless it is there already.
fn second(text: &[u8], sizes: Sizes, out: &[u8], two: &mut [u8]) -> usize {
    if reading::letter(text) == b'k' {
        return sizes.two;
    }
    reading::list_or_out(text, out, sizes.out, two)
}

// Takes a line: runs its case, if it is one.
fn line(
    rt: &impl Print,
    text: &[u8],
    sizes: Sizes,
    one: &mut [u8],
    two: &mut [u8],
    out: &mut [u8],
) -> io::Result<Sizes> {
    if !reading::is_case(text) {
        return Ok(sizes);
    }
    show::case(rt, text)?;
    let lists = reading::after(text, b'|');
    let first = reading::list_or_out(lists, out, sizes.out, one);
    let other = second(reading::after(lists, b'|'), sizes, out, two);
    let made = run(
        rt,
        text,
        reading::front(one, first),
        reading::front(two, other),
        out,
    )?;
    Ok(Sizes {
        two: other,
        out: made,
    })
}

// Takes a text line by line.
fn lines(
    rt: &impl Print,
    text: &[u8],
    one: &mut [u8],
    two: &mut [u8],
    out: &mut [u8],
) -> io::Result<()> {
    let mut sizes = Sizes { two: 0, out: 0 };
    for case in text.split(|sign| *sign == b'\n') {
        sizes = line(rt, case, sizes, one, two, out)?;
    }
    Ok(())
}

// Reads the cases into a lent list, and takes them.
fn start(
    rt: &(impl Input + Print),
    input: &mut [u8],
    one: &mut [u8],
    two: &mut [u8],
    out: &mut [u8],
) -> io::Result<()> {
    let size = read_full(&mut rt.reader(), input)?;
    lines(rt, &input[..size], one, two, out)
}

fn main(rt: HostRuntime) -> io::Result<()> {
    let mut input = [0u8; INPUT];
    let mut one = [0u8; LIST];
    let mut two = [0u8; LIST];
    let mut out = [0u8; LIST];
    start(&rt, &mut input, &mut one, &mut two, &mut out)
}
