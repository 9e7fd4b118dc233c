// The log of a bay: an event logged, a record cleared, the records listed. A case gives the read numbers of its records
// as a list, in which 0 stands for a free record.
use bay_log::{Event, Log};
use cases::{reading, show};
use measure::{RECORD_BYTES, RECORDS};
use std::io;

// One entry more than the lists of a log have.
const MOST: usize = RECORDS + 1;

// The bytes of all records' bits.
const ALL_BYTES: usize = RECORD_BYTES * RECORDS;

// The lists of a log; a case says how many entries of its read numbers and of its free marks are lent.
#[derive(Drop)]
struct Lists {
    numbers: [u64; MOST],
    bits: [u8; ALL_BYTES],
    counts: [usize; RECORDS],
    broken: [u8; RECORDS],
    free: [u8; MOST],
    stored: usize,
}

impl Lists {
    // Makes the lists that a text says, with what a case has for the stored count. (No From leads from usize to u64, or
    // back.)
    fn made(text: &[u8], stored: usize) -> Lists {
        let mut said = [0; MOST];
        reading::number_list(text, &mut said);
        Lists {
            numbers: said.map(|number| number as u64),
            bits: [5; ALL_BYTES],
            counts: [7; RECORDS],
            broken: [2; RECORDS],
            free: said.map(|number| u8::from(number == 0)),
            stored,
        }
    }

    // The log of so many records that they are lent to, if they have so many.
    fn log(&mut self, records: usize) -> Option<Log<'_>> {
        let Lists {
            numbers,
            bits,
            counts,
            broken,
            free,
            stored,
        } = self;
        Some(Log {
            numbers: numbers.get_mut(..records)?,
            bits,
            counts,
            broken,
            free: free.get_mut(..records)?,
            broken_count: stored,
        })
    }

    // Prints the record at a place, if there is one: its read number, bit count, broken mark and free mark, and the
    // first of its bytes; and the count that is stored then.
    fn print(&self, rt: &impl Print, place: usize) -> io::Result<()> {
        if RECORDS <= place {
            return Ok(());
        }
        show::named(rt, b" number ", self.numbers[place] as usize)?;
        show::named(rt, b" count ", self.counts[place])?;
        show::named(rt, b" broken ", usize::from(self.broken[place]))?;
        show::named(rt, b" free ", usize::from(self.free[place]))?;
        show::named(rt, b" byte ", usize::from(self.bits[RECORD_BYTES * place]))?;
        show::named(rt, b" stored ", self.stored)
    }
}

// number count broken records stored, the event's bits, and the read numbers of the log
pub fn log_event(rt: &impl Print, case: &[u8], row: &[u8]) -> io::Result<usize> {
    let [number, count, broken, records, stored] = reading::numbers_of::<5>(case);
    let text = reading::after(reading::after(case, b'|'), b'|');
    let mut lists = Lists::made(text, stored);
    let event = Event {
        number: number as u64,
        bits: row,
        count,
        broken: reading::byte(broken),
    };
    let Some(mut log) = lists.log(records) else {
        return Ok(0);
    };
    match bay_log::log_event(event, &mut log) {
        Ok(place) => {
            show::named(rt, b" at ", place)?;
            lists.print(rt, place)?;
        }
        Err(refusal) => show::refused(rt, refusal)?,
    }
    Ok(0)
}

// place records stored, and the read numbers of the log
pub fn log_clear(rt: &impl Print, case: &[u8]) -> io::Result<usize> {
    let [place, records, stored] = reading::numbers_of::<3>(case);
    let mut lists = Lists::made(reading::after(case, b'|'), stored);
    let Some(mut log) = lists.log(records) else {
        return Ok(0);
    };
    match bay_log::clear(place, &mut log) {
        Ok(()) => lists.print(rt, place)?,
        Err(refusal) => show::refused(rt, refusal)?,
    }
    Ok(0)
}

// room records, and the read numbers of the log
pub fn log_list(rt: &impl Print, case: &[u8]) -> io::Result<usize> {
    let [room, records] = reading::numbers_of::<2>(case);
    let lists = Lists::made(reading::after(case, b'|'), 0);
    let mut places = [99; MOST];
    if MOST < records || MOST < room {
        return Ok(0);
    }
    let lent = &mut places[..room];
    match bay_log::list(&lists.numbers[..records], &lists.free[..records], lent) {
        Ok(count) => show::count(rt, count)?,
        Err(refusal) => show::refused(rt, refusal)?,
    }
    show::text(rt, b" places")?;
    show::numbers(rt, lent)?;
    Ok(0)
}
