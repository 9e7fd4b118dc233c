// The row receiver of a board: rows of n bits out of reads that come one by one.
#![tactic(auto)]

ghost use Rattle.std.specs.Prelude.{◌≡◌, [], ◌∷◌, Err};
ghost use Rattle.board.specs.Packed.{whole, rules_of, mode_number};
ghost use Rattle.board.specs.WellFormed.{well_formed};
ghost use Rattle.board.specs.Answers.{begun, start_says, stepped, stepped_says, listened, listened_says};
ghost use Rattle.board.specs.Answers.{in_lent, told_says};
ghost use Rattle.board.specs.Listening.{heard_says};

mod listening;
mod single;
mod state;

use listening::{Heard, hear};
use measure::{ENTRIES_MOST, HIGH, ReadCycles, Refusal, RowSettings};
use single::hear_one;
use state::{none, unused_zero};

// What the receiver is doing. It is in the middle of a row in two of the four. The numbers of a mode stand beside it:
// C lends nine numbers one by one, and `well_formed` says what each is in each mode.
#[derive(Clone, Copy)]
pub enum Mode {
    // Listening for quiet.
    Hunting,
    // Quiet was heard: the next read of another level marks the first cell.
    Ready,
    // Between a mark and its sample.
    Counting,
    // Between a sample and the next mark.
    Waiting,
}

impl Mode {
    // Gives a mode's number, in the order of the rules.
    pub fn number(self) -> usize
        ensures { mode_number self ≡ result }
    {
        match self {
            Mode::Hunting => 0,
            Mode::Ready => 1,
            Mode::Counting => 2,
            Mode::Waiting => 3,
        }
    }
}

// What a read can change beside the bits. Kept apart from the 128 bytes, so that a read moves none of them.
#[derive(Clone, Copy)]
pub struct Numbers {
    // How many of the last reads were equal, counted up to Q.
    pub run: ReadCycles,
    // In counting, the reads left up to the sample.
    pub left: ReadCycles,
    // How many bits of a row in progress are found.
    pub found: usize,
    pub mode: Mode,
    // The level of the run.
    pub runlevel: u8,
    // The level kept: in counting the mark's, in waiting the sample's, in ready the run's, and in hunting high.
    pub level: u8,
}

// A receiver without its bits, for a caller that lends them where they lie.
#[derive(Clone, Copy)]
pub struct Bare {
    pub settings: RowSettings,
    pub numbers: Numbers,
}

// A receiver. An operation takes it whole and gives the next one back.
#[derive(Clone, Copy)]
pub struct Receiver {
    pub bare: Bare,
    // The bits found of a row in progress: bit i in byte i / 8 at weight 2 to the power i % 8.
    pub bits: [u8; 128],
}

// What a read brings, where it brings something.
#[derive(Clone, Copy)]
pub enum Event {
    // A row is delivered. Its bits stand beside the event: in it, their 128 bytes would travel in every answer of
    // `Bare`, which writes them where they are lent.
    Row,
    // A row in progress is broken after so many bits.
    Broken(usize),
}

// A receiver with which to start, and the answer beside it: a refused start gives a receiver too
// (`board:Answers.begun`).
#[derive(Clone, Copy)]
pub struct Started {
    pub receiver: Receiver,
    pub start: Result<(), Refusal>,
}

// After one read: the next receiver, its event, and the row's bits where the event is a row (otherwise all 0). Not a
// `Listened`: no count of reads used is told of one read (`board:Answers.stepped_says`).
#[derive(Clone, Copy)]
pub struct Stepped {
    pub receiver: Receiver,
    pub event: Result<Option<Event>, Refusal>,
    pub row: [u8; 128],
}

// After reads up to and with the first that brings an event: the same, and how many reads were used.
#[derive(Clone, Copy)]
pub struct Listened {
    pub receiver: Receiver,
    pub event: Result<Option<Event>, Refusal>,
    pub row: [u8; 128],
    pub used: ReadCycles,
}

// After reads up to and with the first that brings an event, where the bits and a row's bytes are lent.
#[derive(Clone, Copy)]
pub struct Told {
    pub bare: Bare,
    pub event: Result<Option<Event>, Refusal>,
    pub used: ReadCycles,
}

impl Bare {
    // The numbers as they came, nothing done.
    fn refused(self, refusal: Refusal) -> Told
        ensures { result ≡ record { bare = self; event = Err refusal; used = record { 0 = 0 } } }
    {
        Told {
            bare: self,
            event: Err(refusal),
            used: ReadCycles(0),
        }
    }

    // Tells whether these numbers and the lent bits make a receiver that is well formed. Refuses nothing.
    #[tactic(auto, unfolding(crate::specs::WellFormed::well_formed))]
    pub fn well_formed(self, bits: &[u8; 128]) -> bool
        ensures { result ≡ well_formed (whole self bits.now) }
    {
        let settings = self.settings;
        let numbers = self.numbers;
        settings.fit()
            && numbers.run_fits(settings.q)
            && numbers.run_level_fits()
            && numbers.left_fits(settings.k)
            && numbers.found_fits(settings.n)
            && numbers.level_fits()
            && unused_zero(bits, numbers.found)
    }

    // Listens as a receiver does, on bits where they lie: they are left as the receiver then keeps them. A delivered
    // row's bits stand in the bytes that are lent for a row, which are left with any other answer. Refuses as a
    // receiver does, and then leaves all that is lent.
    pub fn listen(self, reads: &[u8], bits: &mut [u8; 128], row: &mut [u8; 128]) -> Told
        ensures { in_lent row.old (listened (whole self bits.old) reads.now)
            ≡ told_says result bits.new row.new }
    {
        if !self.well_formed(bits) {
            return self.refused(Refusal::Setting(0));
        }
        if ENTRIES_MOST < reads.len() {
            return self.refused(Refusal::Limit);
        }
        let before = *bits;
        match hear(reads, bits, self) {
            Ok(heard) => self.told(heard, bits, row),
            Err(refusal) => {
                *bits = before;
                self.refused(refusal)
            }
        }
    }

    // Gives the numbers after one read, with its event: on bits where they lie, as `listen` does. What the two share is
    // in `well_formed`, `refused` and `told`: which input is refused, and the copy of the bits, are each one's own.
    pub fn step(self, read: u8, bits: &mut [u8; 128], row: &mut [u8; 128]) -> Told
        ensures { in_lent row.old (listened (whole self bits.old) (read ∷ []))
            ≡ told_says result bits.new row.new }
    {
        if !self.well_formed(bits) {
            return self.refused(Refusal::Setting(0));
        }
        if HIGH < read {
            return self.refused(Refusal::Entry(0));
        }
        let heard = hear_one(read, bits, self);
        self.told(heard, bits, row)
    }

    // What was heard, with the bits that it left: those of a row go to the row's bytes, and with an event none is kept.
    fn told(self, heard: Heard, bits: &mut [u8; 128], row: &mut [u8; 128]) -> Told
        ensures { in_lent row.old (heard_says (rules_of self.settings) bits.old heard)
            ≡ told_says result bits.new row.new }
    {
        let settings = self.settings;
        let numbers = heard.numbers;
        let used = heard.used;
        match heard.event {
            None => {
                let next = Bare { settings, numbers };
                Told {
                    bare: next,
                    event: Ok(None),
                    used,
                }
            }
            Some(Event::Row) => {
                *row = *bits;
                *bits = none();
                let hunting = Bare { settings, numbers };
                Told {
                    bare: hunting,
                    event: Ok(Some(Event::Row)),
                    used,
                }
            }
            Some(Event::Broken(found)) => {
                *bits = none();
                let ready = Bare { settings, numbers };
                Told {
                    bare: ready,
                    event: Ok(Some(Event::Broken(found))),
                    used,
                }
            }
        }
    }
}

impl Receiver {
    // Gives a receiver that has read nothing yet. Refuses with 1 where k, n or Q is out of range: the receiver that
    // comes back is then hunting with all numbers 0.
    pub fn fresh(settings: RowSettings) -> Started
        ensures { begun settings.k.0 settings.n settings.q.0 ≡ (start_says result.start, result.receiver) }
    {
        let zero = ReadCycles(0);
        if settings.fit() {
            let numbers = Numbers::hunting(zero, HIGH);
            return Started {
                receiver: Receiver {
                    bare: Bare { settings, numbers },
                    bits: none(),
                },
                start: Ok(()),
            };
        }
        let settings = RowSettings {
            k: zero,
            n: 0,
            q: zero,
        };
        let numbers = Numbers {
            level: 0,
            ..Numbers::hunting(zero, 0)
        };
        Started {
            receiver: Receiver {
                bare: Bare { settings, numbers },
                bits: none(),
            },
            start: Err(Refusal::Setting(0)),
        }
    }

    // Tells whether the state is well formed. Refuses nothing. The operations refuse any other state, and hand back a
    // well formed one for a well formed one.
    pub fn well_formed(self) -> bool
        ensures { result ≡ well_formed self }
    {
        self.bare.well_formed(&self.bits)
    }

    // Gives the receiver after reads up to and with the first that brings an event, or after all, with that event and
    // the number of reads used; a delivered row's bits stand beside the event, and otherwise 0 in every place there.
    // Refuses with 1 where the state is not well formed, with 3 where there are more reads than a list may have, and
    // with 2 and its place at a read that is no level where no event comes before it. After a refusal the receiver is
    // as it came, and no read is used. Reads after the event are not looked at, so whoever goes on from there pays for
    // each read once.
    pub fn listen(self, reads: &[u8]) -> Listened
        ensures { listened self reads.now ≡ listened_says result }
    {
        let mut bits = self.bits;
        let mut row = none();
        let told = self.bare.listen(reads, &mut bits, &mut row);
        Listened {
            receiver: Receiver {
                bare: told.bare,
                bits,
            },
            event: told.event,
            row,
            used: told.used,
        }
    }

    // Gives the receiver after one read, with its event; a delivered row's bits stand beside the event, and otherwise 0
    // in every place there. Refuses with 1 where the state is not well formed and with 2 where the read is no level;
    // the receiver is then as it came. The body is written out: with one function for both, over a closure, a step
    // takes 316 instructions, and 270 where that is inlined, for 254.
    pub fn step(self, read: u8) -> Stepped
        ensures { stepped self read ≡ stepped_says result }
    {
        let mut bits = self.bits;
        let mut row = none();
        let told = self.bare.step(read, &mut bits, &mut row);
        Stepped {
            receiver: Receiver {
                bare: told.bare,
                bits,
            },
            event: told.event,
            row,
        }
    }
}
