// The rows program: reads a capture from standard input and prints what the row receiver makes of its reads, a line for
// each event.
#![tactic(auto)]

ghost use Rattle.std.specs.Prelude.{◌≡◌, true, ℕ, ◌+◌, ◌≤◌, ◌<◌, length};
ghost use Rattle.measure.specs.Ranges.{entries_most};
ghost use Rattle.measure.specs.Refusals.{given};
ghost use Rattle.page.specs.Answers.{put_says};
ghost use Rattle.rows.specs.Turns.{line_most, walk_of, next_of, Ready, turned, Filled};

use board::{Event, Receiver};
use capture::Summary;
use measure::{ENTRIES_MOST, INPUT_MOST, ReadCycles, Refusal};
use std::io;

// No line is longer: twenty digits, a row's word, its 1,024 bits and a line feed.
const LINE_MOST: usize = 1050;

// Lines are gathered on a page of so many bytes before they are written.
const PAGE: usize = 16384;

// Where the program stands in a capture: its receiver, the place of the next read, and the rows delivered so far.
#[derive(Clone, Copy)]
struct Walk {
    receiver: Receiver,
    place: ReadCycles,
    rows: usize,
}

// After lines were put: how many bytes they have, and where the program stands if more lines follow.
#[derive(Clone, Copy)]
struct Turned {
    bytes: usize,
    next: Option<Walk>,
}

// How many bytes a line has that was put. None is refused, since each has room.
fn bytes_of(put: Result<usize, Refusal>) -> usize
    ensures { (n : ℕ) → put_says put ≡ given n → result ≡ n }
{
    put.unwrap_or(0)
}

// One turn: listens to the reads that are left up to the next event and puts its line, or the last line where none
// comes.
fn turn(walk: Walk, left: &[u8], out: &mut [u8]) -> Turned
    requires ready { Ready (walk_of walk) (walk.place.0 + length left.now) }
    requires line_most_in_bounds { line_most ≤ length out.old }
    ensures { turned (walk_of walk) left.now out.old ≡ (next_of result.next, result.bytes, out.new) }
{
    let before = walk.place.0;
    let rows = walk.rows;
    let heard = walk.receiver.listen(left);
    let place = before + heard.used.0;
    let receiver = heard.receiver;
    match heard.event {
        Ok(None) => {
            let bytes = bytes_of(page::put_end(ReadCycles(place), rows, out));
            Turned { bytes, next: None }
        }
        Ok(Some(Event::Row)) => {
            let n = receiver.bare.settings.n;
            let last = place - 1;
            let bytes = bytes_of(page::put_row(ReadCycles(last), n, &heard.row, out));
            let delivered = rows + 1;
            Turned {
                bytes,
                next: Some(Walk {
                    receiver,
                    place: ReadCycles(place),
                    rows: delivered,
                }),
            }
        }
        Ok(Some(Event::Broken(found))) => {
            let last = place - 1;
            let bytes = bytes_of(page::put_broken(ReadCycles(last), found, out));
            Turned {
                bytes,
                next: Some(Walk {
                    receiver,
                    place: ReadCycles(place),
                    rows,
                }),
            }
        }
        Err(refusal) => {
            let bytes = bytes_of(page::put_refused(refusal, out));
            Turned { bytes, next: None }
        }
    }
}

// Fills a page: turns until the last line is put or no further line is sure to fit.
fn fill(start: Walk, reads: &[u8], page: &mut [u8]) -> Turned
    requires ready { Ready (walk_of start) (length reads.now) }
    requires line_most_in_bounds { line_most ≤ length page.old }
    ensures { Filled (walk_of start) reads.now page.new (next_of result.next) result.bytes }
{
    let mut walk = start;
    let mut bytes = 0;
    while LINE_MOST <= page.len() - bytes {
        let at = walk.place.0;
        let turned = turn(walk, &reads[at..], &mut page[bytes..]);
        bytes += turned.bytes;
        match turned.next {
            Some(next) => walk = next,
            None => return Turned { bytes, next: None },
        }
    }
    Turned {
        bytes,
        next: Some(walk),
    }
}

// Prints a capture's heading and then its lines, page by page. Stops where standard output takes no more.
fn print_rows(rt: &impl Print, summary: Summary, reads: &[u8]) -> io::Result<()>
    requires { length reads.now ≤ entries_most }
{
    let started = Receiver::fresh(summary.settings);
    let mut page = [0u8; PAGE];
    let heading = bytes_of(page::put_heading(&mut page));
    rt.write_all(&page[..heading])?;
    let mut walk = Walk {
        receiver: started.receiver,
        place: ReadCycles(0),
        rows: 0,
    };
    loop {
        let filled = fill(walk, reads, &mut page);
        let bytes = filled.bytes;
        rt.write_all(&page[..bytes])?;
        match filled.next {
            Some(next) => walk = next,
            None => return Ok(()),
        }
    }
}

// Prints the only line of a bad capture.
fn print_refused(rt: &impl Print, refusal: Refusal) -> io::Result<()> {
    let mut line = [0u8; LINE_MOST];
    let bytes = bytes_of(page::put_refused(refusal, &mut line));
    rt.write_all(&line[..bytes])
}

// Prints what a capture says, or why it is none; its reads go into the lent list.
fn print(rt: &impl Print, input: &[u8], reads: &mut [u8]) -> io::Result<()>
    requires { length reads.old ≤ entries_most }
{
    if INPUT_MOST < input.len() {
        return print_refused(rt, Refusal::Limit);
    }
    match capture::read_capture(input, reads) {
        Ok(summary) => {
            let count = summary.reads.0;
            print_rows(rt, summary, &reads[..count])
        }
        Err(refusal) => print_refused(rt, refusal),
    }
}

fn main(rt: HostRuntime) -> io::Result<()> {
    let mut bytes = [0u8; INPUT_MOST + 1];
    let size = input::read_full(&mut rt.reader(), &mut bytes)?;
    let mut reads = [0u8; ENTRIES_MOST];
    print(&rt, &bytes[..size], &mut reads)
}
