// The rows program's lines, put on the front of a lent buffer one at a time.
#![tactic(auto)]

ghost use Rattle.std.specs.Prelude.{◌≡◌, [], ◌∷◌, ◌+◌, ◌/◌, ◌≤◌, ◌<◌, length, take, get_or};
ghost use Rattle.std.proofs.Common.{append-nil};
ghost use Rattle.measure.specs.Refusals.{number_of, place_of, lent};
ghost use Rattle.board.specs.Rows.{row, broken};
ghost use Rattle.board.specs.Packed.{unpacked};
ghost use Rattle.page.specs.Words.{bits_text};
ghost use Rattle.page.specs.Lines.{heading_line, event_line, end_line, refused_line};
ghost use Rattle.page.specs.Answers.{put_says};

use measure::{ReadCycles, Refusal};
use text::{Piece, Text, end_within, put_line};

// The fixed words of the program.
const HEADING: [u8; 16] = *b"read event bits\n";

const ROW: [u8; 5] = *b" row ";

const BROKEN: [u8; 8] = *b" broken ";

const END: [u8; 4] = *b"end ";

const ROWS: [u8; 6] = *b" rows ";

const REFUSED: [u8; 8] = *b"refused ";

const AT: [u8; 4] = *b" at ";

const FEED: [u8; 1] = *b"\n";

// The byte of a bit that is 0.
const ZERO: u8 = b'0';

// Gives a bit of packed bits: bit i stands in byte i / 8 at weight 2 to the power i % 8.
fn bit_at(bits: &[u8], i: usize) -> u8
    requires { i / 8 < length bits.now }
    ensures { get_or (unpacked 8 bits.now) i 0 ≡ result }
{
    let byte = bits[i / 8];
    (byte >> (i % 8)) % 2
}

// Gives how many bits there are of n that are asked for.
fn held(bits: &[u8], n: usize) -> usize
    ensures { result ≡ length (take n (unpacked 8 bits.now)) }
{
    let bytes = bits.len();
    if n / 8 < bytes { n } else { bytes * 8 }
}

// The first bits of a row, so many or all of them where they are fewer, packed as the receiver hands them over.
#[derive(Clone, Copy)]
struct RowBits<'a> {
    packed: &'a [u8],
    count: usize,
}

#[tactic(auto, unfolding(text::specs::Putting::puts))]
impl<'a> Piece for RowBits<'a> {
    ghost bytes = { λ bits. bits_text (take bits.count (unpacked 8 bits.packed.now)) };

    ghost parts = { λ bits. bits_text (take bits.count (unpacked 8 bits.packed.now)) ∷ [] };

    ghost whole = { λ bits. append-nil (bits_text (take bits.count (unpacked 8 bits.packed.now))) };

    fn end(self, at: usize, room: usize) -> Option<usize> {
        end_within(at, held(self.packed, self.count), room)
    }

    fn put(self, out: &mut [u8], at: usize) -> usize {
        match self.end(at, out.len()) {
            None => at,
            Some(end) => {
                let part = &mut out[at..end];
                for (i, byte) in part.iter_mut().enumerate() {
                    *byte = ZERO + bit_at(self.packed, i);
                }
                end
            }
        }
    }

    fn lay(self, out: &mut [u8], at: usize) -> usize {
        self.put(out, at)
    }
}

// Puts line one, which is fixed, at the front of the lent buffer and gives its length. Refuses with 4 where the buffer
// is shorter than the line, and then leaves it; what lies beyond the line is untouched.
pub fn put_heading(out: &mut [u8]) -> Result<usize, Refusal>
    ensures { lent heading_line out.old ≡ (put_says result, out.new) }
{
    put_line(Text(&HEADING), out)
}

// Puts the line of a delivered row at the front of the lent buffer and gives its length: the place of the read that
// brought it, and the first n of its bits (all of them where they are fewer), packed as the receiver hands them over.
// Refuses with 4 and leaves the buffer as `put_heading` does.
pub fn put_row(place: ReadCycles, n: usize, bits: &[u8], out: &mut [u8]) -> Result<usize, Refusal>
    ensures { lent (event_line place.0 (row (take n (unpacked 8 bits.now)))) out.old
        ≡ (put_says result, out.new) }
{
    let read = place.0;
    let kept = RowBits {
        packed: bits,
        count: n,
    };
    put_line(read.then(Text(&ROW)).then(kept).then(Text(&FEED)), out)
}

// Puts the line of a broken row and gives its length: the place of the read that broke it, and the number of bits
// dropped. Refuses with 4 and leaves the buffer as `put_heading` does.
pub fn put_broken(place: ReadCycles, found: usize, out: &mut [u8]) -> Result<usize, Refusal>
    ensures { lent (event_line place.0 (broken found)) out.old ≡ (put_says result, out.new) }
{
    let read = place.0;
    put_line(read.then(Text(&BROKEN)).then(found).then(Text(&FEED)), out)
}

// Puts the last line and gives its length: how many reads there were and how many rows came out of them. Refuses with 4
// and leaves the buffer as `put_heading` does.
pub fn put_end(reads: ReadCycles, rows: usize, out: &mut [u8]) -> Result<usize, Refusal>
    ensures { lent (end_line reads.0 rows) out.old ≡ (put_says result, out.new) }
{
    let total = reads.0;
    put_line(
        Text(&END)
            .then(total)
            .then(Text(&ROWS))
            .then(rows)
            .then(Text(&FEED)),
        out,
    )
}

// Puts the only line of a bad capture and gives its length: the refusal's number and place. Refuses with 4 and leaves
// the buffer as `put_heading` does.
pub fn put_refused(refusal: Refusal, out: &mut [u8]) -> Result<usize, Refusal>
    ensures { lent (refused_line (number_of refusal) (place_of refusal)) out.old
        ≡ (put_says result, out.new) }
{
    let number = refusal.number();
    let place = refusal.place();
    put_line(
        Text(&REFUSED)
            .then(number)
            .then(Text(&AT))
            .then(place)
            .then(Text(&FEED)),
        out,
    )
}
