// Sending a message, and a plan.
use crate::numbers::{MOST, numbers};
use cases::{reading, show};
use measure::WriterCycles;
use sender::Cell;
use std::io;

fn cell(a: usize, b: usize) -> Cell {
    Cell {
        a: WriterCycles(a),
        b: WriterCycles(b),
    }
}

// a b lead, and the bits
pub fn send(rt: &impl Print, case: &[u8], bits: &[u8], out: &mut [u8]) -> io::Result<usize> {
    let [a, b, lead] = reading::numbers_of::<3>(case);
    show::written(rt, sender::send(cell(a, b), WriterCycles(lead), bits, out))
}

// a b n, and the bits and the leads
pub fn send_plan(rt: &impl Print, case: &[u8], bits: &[u8], out: &mut [u8]) -> io::Result<usize> {
    let [a, b, n] = reading::numbers_of::<3>(case);
    let list = reading::after(reading::after(case, b'|'), b'|');
    let mut leads = [0; MOST];
    let leads = numbers(reading::until(list, b'>'), &mut leads);
    show::written(rt, sender::send_plan(cell(a, b), n, leads, bits, out))
}
