// Linear time code (SMPTE 12M, 25 frames a second): from decoded bits to times, and from a time to the bits of its
// word.
#![tactic(auto)]

ghost use Rattle.std.specs.Prelude.{◌≡◌, true, false, [], ◌∷◌, ◌+◌, ◌*◌, ◌≤◌, ◌<◌, leb, length, drop};
ghost use Rattle.std.proofs.lemmas.List.Edits.{sets};
ghost use Rattle.std.specs.Iterator.{YieldsFirst, item_count};
ghost use Rattle.measure.specs.Lists.{some_above, onto};
ghost use Rattle.timecode.specs.Words.{stands, word_places};
ghost use Rattle.timecode.specs.Times.{number, part, time_of, time_fits, units_fit};
ghost use Rattle.timecode.specs.Times.{bits_of, part_bits, word_of};
ghost use Rattle.timecode.specs.declared.Stop.TheVariants.{Refused};
ghost use Rattle.timecode.specs.Answers.{listed_into, read_times, read_says, write_time, written_says};
ghost use Rattle.timecode.specs.Carried.{words_from, words_by};

use measure::{ENTRIES_MOST, HIGH, Refusal};

// A time of day. At 25 frames a second a frame is a 25th of a second.
#[derive(Clone, Copy)]
pub struct Time {
    pub hours: u8,
    pub minutes: u8,
    pub seconds: u8,
    pub frames: u8,
}

impl Time {
    // Tells whether all four are in range.
    fn in_range(self) -> bool
        ensures { result ≡ time_fits self.hours self.minutes self.seconds self.frames }
    {
        (self.hours <= HOURS_MOST)
            & (self.minutes <= MINUTES_MOST)
            & (self.seconds <= SECONDS_MOST)
            & (self.frames <= FRAMES_MOST)
    }
}

// Why the reader does not give the times of all words.
#[derive(Clone, Copy)]
pub enum Stop {
    // Refusal 10: the place of the first bad word, and how many words come before it, whose times stand at the front of
    // the lent output.
    BadWord { at: usize, words: usize },
    Refused(Refusal),
}

impl From<Refusal> for Stop {
    ghost from_gives = { λ refusal stop. stop ≡ Refused refusal };

    fn from(refusal: Refusal) -> Stop {
        Stop::Refused(refusal)
    }
}

// The bits of a word, and those before its mark.
const WORD: usize = 80;

const BEFORE_MARK: usize = 64;

// The mark, as bits, and as a number whose highest bit comes first.
const MARK_BITS: [u8; 16] = [0, 0, 1, 1, 1, 1, 1, 1, 1, 1, 1, 1, 1, 1, 0, 1];

const MARK: usize = 0x3FFD;

// The bytes of a time.
const TIME: usize = 4;

// The most that units, hours, minutes, seconds and frames can be.
const UNITS_MOST: u8 = 9;

pub const HOURS_MOST: u8 = 23;

pub const MINUTES_MOST: u8 = 59;

pub const SECONDS_MOST: u8 = 59;

pub const FRAMES_MOST: u8 = 24;

// A list of bits, not longer than a list may be.
#[derive(Clone, Copy)]
struct Bits<'a> {
    list: &'a [u8],
    ghost all_bits: { some_above 1 list.now ≡ false },
    ghost short: { length list.now ≤ 1048576 },
}

impl<'a> Bits<'a> {
    // Tells whether a word stands at a place. The bits that are the mark's are counted, with no early end, so that the
    // compiler can take all 16 at once: `==` on the two lists calls for a comparison of any length. This is asked where
    // a word is likely to stand, which is after another.
    fn stands_at(self, at: usize) -> bool
        requires { at + 80 ≤ length self.list.now }
        ensures { result ≡ stands (drop at self.entry.list.now) }
    {
        let from = at + BEFORE_MARK;
        let mut n: usize = 0;
        for (i, bit) in MARK_BITS.iter().enumerate() {
            if self.list[from + i] == *bit {
                n += 1;
            }
        }
        n == MARK_BITS.len()
    }

    // Gives the place of the first word from `from` on, where 80 bits are left.
    // The bits of marks are walked over once, with the last 15 carried along as a number, at first fifteen 1s: a mark
    // begins with a 0, so none is found before 16 bits are there. The last bit of a mark is bit 79 of its word, and the
    // walk counts from bit 64 on, so the word begins 15 places before the count.
    fn walk_to_word(self, from: usize) -> Option<usize>
        requires { from + 80 ≤ length self.list.now }
        ensures { words_from self.entry.list.now from ≡ words_by self.entry.list.now result }
    {
        let mut last = 32767;
        for (i, bit) in self.list[from + BEFORE_MARK..].iter().enumerate() {
            let full = 2 * last + usize::from(*bit);
            if full == MARK {
                return Some(from + i - 15);
            }
            last = full % 32768;
        }
        None
    }

    // Gives the place of the first word from `from` on. After another word it is looked for there before the walk.
    fn next_word(self, from: usize) -> Option<usize>
        requires { from ≤ length self.list.now }
        ensures { words_from self.entry.list.now from ≡ words_by self.entry.list.now result }
    {
        if self.list.len() < from + WORD {
            return None;
        }
        if 0 < from && self.stands_at(from) {
            return Some(from);
        }
        self.walk_to_word(from)
    }

    // Gives the places of the words, one by one.
    fn words(self) -> Words<'a>
        ensures { (result.bits.list.now ≡ self.entry.list.now) × (result.from ≡ 0) }
    {
        Words {
            bits: self,
            from: 0,
        }
    }

    // Gives the word at a place.
    fn word(self, at: usize) -> Word<'a>
        requires { at + 80 ≤ length self.list.now }
        ensures { result.bits.now ≡ drop at self.entry.list.now }
    {
        Word {
            bits: &self.list[at..],
        }
    }

    // Tells whether there is room for the times of all words. A word has 80 bits, so they need not be counted where
    // there is room for a time for each 80 bits.
    fn has_room(self, room: usize) -> bool
        ensures { result ≡ leb (4 * length (word_places self.entry.list.now)) room }
    {
        let most = self.list.len() / WORD;
        if most <= room / TIME {
            return true;
        }
        let words = self.words().count();
        TIME * words <= room
    }
}

// The places of the words from a place on.
#[derive(Drop)]
struct Words<'a> {
    bits: Bits<'a>,
    from: usize,
    ghost within: { from ≤ length bits.list.now },
}

impl<'a> Iterator for Words<'a> {
    type Item = usize;

    ghost next_gives = { YieldsFirst (λ s. words_from s.bits.list.now s.from) };

    ghost remaining = { item_count (λ s. words_from s.bits.list.now s.from) };

    fn next(&mut self) -> Option<usize> {
        let at = self.bits.next_word(self.from)?;
        self.from = at + WORD;
        Some(at)
    }
}

// A word, and the bits that come after it.
#[derive(Clone, Copy)]
struct Word<'a> {
    bits: &'a [u8],
    ghost all_bits: { some_above 1 bits.now ≡ false },
    ghost whole: { 80 ≤ length bits.now },
}

impl<'a> Word<'a> {
    // Gives the number in so many bits from a place on, the lowest first.
    fn number<const COUNT: usize>(self, at: usize) -> u8
        requires { (at + COUNT ≤ 80) × (COUNT ≤ 4) }
        ensures { (result ≡ number COUNT at self.entry.bits.now) × (result ≤ 15) }
    {
        let mut n = 0;
        let mut weight = 1;
        for i in 0..COUNT {
            n += weight * self.bits[at + i];
            weight *= 2;
        }
        n
    }

    // Gives a part of a time whose units stand at a place, with tens of so many bits.
    fn part<const TENS: usize>(self, units: usize) -> u8
        requires { (units + 8 + TENS ≤ 80) × (TENS ≤ 4) }
        ensures { result ≡ part units (units + 8) TENS self.entry.bits.now }
    {
        self.number::<4>(units) + 10 * self.number::<TENS>(units + 8)
    }

    // Gives the time in it.
    fn time(self) -> Time
        ensures { result.hours ∷ result.minutes ∷ result.seconds ∷ result.frames ∷ [] ≡ time_of self.entry.bits.now }
    {
        Time {
            hours: self.part::<2>(48),
            minutes: self.part::<3>(32),
            seconds: self.part::<3>(16),
            frames: self.part::<2>(0),
        }
    }

    // Tells whether its units are digits.
    fn has_digits(self) -> bool
        ensures { result ≡ units_fit self.entry.bits.now }
    {
        (self.number::<4>(48) <= UNITS_MOST)
            & (self.number::<4>(32) <= UNITS_MOST)
            & (self.number::<4>(16) <= UNITS_MOST)
            & (self.number::<4>(0) <= UNITS_MOST)
    }
}

// Stores the four bytes of a time from a place on. They are stored one by one: with `copy_from_slice` from a list of the
// four, a word takes seven instructions more.
fn put_time(out: &mut [u8], at: usize, time: Time)
    requires { at + 4 ≤ length out.old }
    ensures { sets out.old at (time.hours ∷ time.minutes ∷ time.seconds ∷ time.frames ∷ [])
        ≡ out.new }
{
    out[at] = time.hours;
    out[at + 1] = time.minutes;
    out[at + 2] = time.seconds;
    out[at + 3] = time.frames;
}

// Lists the times of the words up to the first bad one.
fn read_into(bits: Bits, out: &mut [u8]) -> Result<usize, Stop>
    requires { 4 * length (word_places bits.list.now) ≤ length out.old }
    ensures { listed_into bits.entry.list.now out.old ≡ (read_says result, out.new) }
{
    let mut words = 0;
    for at in bits.words() {
        let word = bits.word(at);
        let time = word.time();
        if !(word.has_digits() & time.in_range()) {
            return Err(Stop::BadWord { at, words });
        }
        put_time(out, TIME * words, time);
        words += 1;
    }
    Ok(words)
}

// Reads time code. Gives the times of the words found, four bytes a word: hours, minutes, seconds, frames.
// Refuses with 3 (more than 1,048,576 bits), 2 (the place of the first entry that is no bit), 4 (an output with less
// than four bytes for each word found, bad ones too), then 10.
// The output holds the times at its front, with refusal 10 those before the first bad word, and is otherwise untouched;
// refusals 2 to 4 leave all of it.
#[tactic(auto, unfolding(crate::specs::Answers::read_times))]
pub fn read_times(bits: &[u8], out: &mut [u8]) -> Result<usize, Stop>
    ensures { read_times bits.now out.old ≡ (read_says result, out.new) }
{
    if bits.len() > ENTRIES_MOST {
        return Err(Stop::Refused(Refusal::Limit));
    }
    measure::check_entries(bits, HIGH)?;
    let checked = Bits { list: bits };
    if !checked.has_room(out.len()) {
        return Err(Stop::Refused(Refusal::Room));
    }
    read_into(checked, out)
}

// Stores the eight bits of a number, the lowest first.
fn put_eight(out: &mut [u8], n: u8)
    requires { length out.old ≡ 8 }
    ensures { bits_of 8 n ≡ out.new }
{
    let mut left = n;
    for bit in out.iter_mut() {
        *bit = left % 2;
        left /= 2;
    }
}

// Stores a part of a time: units, and tens eight bits later.
fn put_part(out: &mut [u8], n: u8)
    requires { (length out.old ≡ 16) × (n ≤ 59) }
    ensures { part_bits 3 n ≡ out.new }
{
    put_eight(&mut out[..8], n % 10);
    put_eight(&mut out[8..], n / 10);
}

// Writes the word of a time.
fn write_into(time: Time, out: &mut [u8])
    requires { (time_fits time.hours time.minutes time.seconds time.frames ≡ true)
        × (80 ≤ length out.old) }
    ensures { onto (word_of time.hours time.minutes time.seconds time.frames) out.old
        ≡ out.new }
{
    put_part(&mut out[..16], time.frames);
    put_part(&mut out[16..32], time.seconds);
    put_part(&mut out[32..48], time.minutes);
    put_part(&mut out[48..BEFORE_MARK], time.hours);
    out[BEFORE_MARK..WORD].copy_from_slice(&MARK_BITS);
}

// Writes time code. Gives the 80 bits of the word of a time, with user bits and flags 0.
// Refuses with 1 (hours, minutes, seconds or frames out of range), then 4 (an output shorter than 80).
// The output holds the word at its front and is otherwise untouched; a refusal leaves all of it.
pub fn write_time(time: Time, out: &mut [u8]) -> Result<usize, Refusal>
    ensures { write_time time.hours time.minutes time.seconds time.frames out.old
        ≡ (written_says result, out.new) }
{
    if !time.in_range() {
        return Err(Refusal::Setting(0));
    }
    if out.len() < WORD {
        return Err(Refusal::Room);
    }
    write_into(time, out);
    Ok(WORD)
}
