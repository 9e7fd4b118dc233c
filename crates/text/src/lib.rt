// Text as bytes: words, and numbers in decimal, put from a place of a lent output on. A line is put piece by piece,
// each where the one before it ends; whoever puts it asks first for the sizes, and so knows whether all of it has room.
#![tactic(auto)]

ghost use Rattle.std.specs.Prelude.{◌≡◌, length};
ghost use Rattle.text.specs.Decimal.{decimal, numeral, signed_decimal};
ghost use Rattle.text.specs.Putting.{put_at, end_within};

mod line;

pub use line::{Piece, Text, Then, put_line};

// The byte of the digit 0, and of a minus sign.
const ZERO: u8 = b'0';

const MINUS: u8 = b'-';

// Gives the place after so many bytes that begin at a place of an output with so much room, and nothing where they have
// no room there.
pub fn end_within(at: usize, size: usize, room: usize) -> Option<usize>
    ensures { result ≡ end_within at size room }
{
    at.checked_add(size).filter(|end| *end <= room)
}

// Puts a text into the lent output from a place on, and gives the place after it. Where it has no room the output is
// untouched, and the place comes back as it was.
// The output and the place stay apart: one equation then says both, and a struct that holds the output would need a
// clause about its loan in each contract.
pub fn put_text(out: &mut [u8], at: usize, text: &[u8]) -> usize
    ensures { put_at text.now at out.old ≡ (result, out.new) }
{
    match end_within(at, text.len(), out.len()) {
        None => at,
        Some(end) => {
            out[at..end].copy_from_slice(text);
            end
        }
    }
}

// Gives how many bytes a number has in decimal.
pub fn number_size(n: usize) -> usize
    ensures { result ≡ length (decimal n) }
{
    let mut left = n;
    let mut size = 1;
    while 10 <= left {
        left /= 10;
        size += 1;
    }
    size
}

// A number as text: its digits, and a minus sign before them where it is below 0.
#[derive(Clone, Copy)]
struct Numeral {
    below: bool,
    digits: usize,
}

impl Numeral {
    // Gives a number's numeral.
    fn of(n: usize) -> Numeral
        ensures { numeral result.below result.digits ≡ decimal n }
    {
        Numeral {
            below: false,
            digits: n,
        }
    }

    // Gives a signed number's numeral.
    fn of_signed(v: i64) -> Numeral
        ensures { numeral result.below result.digits ≡ signed_decimal v }
    {
        let digits = v.unsigned_abs() as usize;
        if v < 0 {
            Numeral {
                below: true,
                digits,
            }
        } else {
            Numeral::of(digits)
        }
    }

    // Gives how many bytes it has.
    fn size(self) -> usize
        ensures { result ≡ length (numeral self.below self.digits) }
    {
        let digits = number_size(self.digits);
        if self.below { digits + 1 } else { digits }
    }

    // Fills a part of the output that has as many bytes, the last digit first. The digits are made here and not by the
    // library, since faults in them are edits of this code (must-fail: highest_digit_last, zero_for_minus). They are
    // stored where they go, since to copy them from a list of their own takes longer than to make them.
    fn fill(self, part: &mut [u8])
        requires { length part.old ≡ length (numeral self.below self.digits) }
        ensures { part.new ≡ numeral self.below self.digits }
    {
        let mut to = part.len();
        let mut left = self.digits;
        while 10 <= left {
            let digit = left % 10;
            to -= 1;
            part[to] = ZERO + digit as u8;
            left /= 10;
        }
        to -= 1;
        part[to] = ZERO + left as u8;
        if self.below {
            part[0] = MINUS;
        }
    }

    // Puts it from a place on, and gives the place after it.
    fn put(self, out: &mut [u8], at: usize) -> usize
        ensures { put_at (numeral self.below self.digits) at out.old ≡ (result, out.new) }
    {
        match end_within(at, self.size(), out.len()) {
            None => at,
            Some(end) => {
                self.fill(&mut out[at..end]);
                end
            }
        }
    }
}

// Puts a number in decimal, with no zero before it, from a place on, and gives the place after it. Leaves the output as
// `put_text` does where it has no room.
pub fn put_number(out: &mut [u8], at: usize, n: usize) -> usize
    ensures { put_at (decimal n) at out.old ≡ (result, out.new) }
{
    Numeral::of(n).put(out, at)
}

// Gives how many bytes a signed number has in decimal: its digits, and a minus sign where it is below 0.
pub fn signed_size(v: i64) -> usize
    ensures { result ≡ length (signed_decimal v) }
{
    Numeral::of_signed(v).size()
}

// Puts a signed number in decimal, with a minus sign where it is below 0, from a place on, and gives the place after
// it. Leaves the output as `put_text` does where it has no room.
pub fn put_signed(out: &mut [u8], at: usize, v: i64) -> usize
    ensures { put_at (signed_decimal v) at out.old ≡ (result, out.new) }
{
    Numeral::of_signed(v).put(out, at)
}
