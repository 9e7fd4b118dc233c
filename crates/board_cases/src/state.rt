// A receiver's state, and what a read brings, as they are printed.
use board::{Event, Receiver};
use cases::show;
use measure::Refusal;
use std::io;

fn byte(rt: &impl Print, place: usize, value: u8) -> io::Result<()> {
    if value != 0 {
        show::named(rt, b" byte ", place)?;
        show::count(rt, usize::from(value))?;
    }
    Ok(())
}

// The bytes that are not 0, each with its place.
fn bytes(rt: &impl Print, packed: &[u8; 128]) -> io::Result<()> {
    for (i, value) in packed.iter().enumerate() {
        byte(rt, i, *value)?;
    }
    Ok(())
}

// The nine numbers of a state, k n Q mode run runlevel left level found, and its bytes.
pub fn shown(rt: &impl Print, receiver: Receiver) -> io::Result<()> {
    let settings = receiver.bare.settings;
    let numbers = receiver.bare.numbers;
    let packed = receiver.bits;
    show::named(rt, b" state ", settings.k.0)?;
    show::count(rt, settings.n)?;
    show::count(rt, settings.q.0)?;
    show::count(rt, numbers.mode.number())?;
    show::count(rt, numbers.run.0)?;
    show::count(rt, usize::from(numbers.runlevel))?;
    show::count(rt, numbers.left.0)?;
    show::count(rt, usize::from(numbers.level))?;
    show::count(rt, numbers.found)?;
    bytes(rt, &packed)
}

// Bit i of packed bits.
fn bit(packed: &[u8; 128], i: usize) -> usize {
    if 1023 < i {
        return 0;
    }
    let byte = packed[i / 8];
    usize::from((byte >> (i % 8)) % 2)
}

// The first n of packed bits.
fn bits(rt: &impl Print, packed: &[u8; 128], n: usize) -> io::Result<()> {
    for i in 0..n {
        show::number(rt, bit(packed, i))?;
    }
    Ok(())
}

// What the read at a place brought.
pub fn reported(
    rt: &impl Print,
    place: usize,
    event: Result<Option<Event>, Refusal>,
    n: usize,
    row: &[u8; 128],
) -> io::Result<()> {
    match event {
        Ok(None) => Ok(()),
        Ok(Some(Event::Row)) => {
            show::count(rt, place)?;
            show::text(rt, b" row ")?;
            bits(rt, row, n)
        }
        Ok(Some(Event::Broken(found))) => {
            show::count(rt, place)?;
            show::named(rt, b" broken ", found)
        }
        Err(refusal) => show::refused(rt, refusal),
    }
}
