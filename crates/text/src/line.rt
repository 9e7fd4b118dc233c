// A line, put together of its pieces.
#![tactic(auto, unfolding(crate::specs::Putting::puts))]

ghost use Rattle.std.specs.Prelude.{◌≡◌, [], ◌∷◌, ◌++◌, ℕ, List, length};
ghost use Rattle.std.proofs.Common.{append-nil, refl};
ghost use Rattle.std.specs.List.{concat};
ghost use Rattle.std.proofs.lemmas.List.Folds.{concat-append};
ghost use Rattle.measure.specs.Refusals.{lent, says};
ghost use Rattle.text.specs.Decimal.{decimal, signed_decimal};
ghost use Rattle.text.specs.Putting.{put_at, puts, end_within};

use crate::{end_within, number_size, put_number, put_signed, put_text, signed_size};
use measure::Refusal;

// What a line is made of: a text, a number, or pieces one after another.
pub trait Piece: Copy {
    // The bytes of the piece.
    ghost bytes: { Self → List ℕ };

    // The same bytes, in the parts that are put one by one.
    ghost parts: { Self → List (List ℕ) };

    // Gives the place after the piece where it begins at a place of an output with so much room, and nothing where it
    // has no room there.
    fn end(self, at: usize, room: usize) -> Option<usize>
        ensures { result ≡ end_within at (length (bytes self)) room };

    // Puts the piece into the lent output from a place on, and gives the place after it. Leaves the output as
    // `put_text` does where it has no room.
    fn put(self, out: &mut [u8], at: usize) -> usize
        ensures { put_at (bytes self) at out.old ≡ (result, out.new) };

    // Puts the parts of the piece one after another, each of them as `put_text` does, and gives the place after the
    // last. Its caller asks for the room of the whole first, once; each part then asks for its own alone.
    fn lay(self, out: &mut [u8], at: usize) -> usize
        ensures { puts (parts self) at out.old ≡ (result, out.new) };

    // Gives this piece with another after it.
    fn then<P>(self, next: P) -> Then<Self, P>
        ensures { result ≡ record { first = self; next = next } }
    {
        Then { first: self, next }
    }

    // The parts joined are the bytes.
    ghost whole: { (piece : Self) → concat (parts piece) ≡ bytes piece };
}

// A text as a piece.
#[derive(Clone, Copy)]
pub struct Text<'a>(pub &'a [u8]);

// A piece with another after it.
#[derive(Clone, Copy)]
pub struct Then<A, B> {
    first: A,
    next: B,
}

impl<'a> Piece for Text<'a> {
    ghost bytes = { λ text. text.0.now };

    ghost parts = { λ text. text.0.now ∷ [] };

    ghost whole = { λ text. append-nil (text.0.now) };

    fn end(self, at: usize, room: usize) -> Option<usize> {
        end_within(at, self.0.len(), room)
    }

    fn put(self, out: &mut [u8], at: usize) -> usize {
        put_text(out, at, self.0)
    }

    fn lay(self, out: &mut [u8], at: usize) -> usize {
        self.put(out, at)
    }
}

impl Piece for usize {
    ghost bytes = { decimal };

    ghost parts = { λ n. decimal n ∷ [] };

    ghost whole = { λ n. append-nil (decimal n) };

    fn end(self, at: usize, room: usize) -> Option<usize> {
        end_within(at, number_size(self), room)
    }

    fn put(self, out: &mut [u8], at: usize) -> usize {
        put_number(out, at, self)
    }

    fn lay(self, out: &mut [u8], at: usize) -> usize {
        self.put(out, at)
    }
}

impl Piece for i64 {
    ghost bytes = { signed_decimal };

    ghost parts = { λ v. signed_decimal v ∷ [] };

    ghost whole = { λ v. append-nil (signed_decimal v) };

    fn end(self, at: usize, room: usize) -> Option<usize> {
        end_within(at, signed_size(self), room)
    }

    fn put(self, out: &mut [u8], at: usize) -> usize {
        put_signed(out, at, self)
    }

    fn lay(self, out: &mut [u8], at: usize) -> usize {
        self.put(out, at)
    }
}

impl<A: Piece, B: Piece> Piece for Then<A, B> {
    ghost bytes = { λ both. A.bytes both.first ++ B.bytes both.next };

    ghost parts = { λ both. A.parts both.first ++ B.parts both.next };

    ghost whole = { λ both. Prim.rw (
      concat-append (A.parts both.first) (B.parts both.next),
      A.whole both.first,
      B.whole both.next,
    ) refl };

    fn end(self, at: usize, room: usize) -> Option<usize> {
        let middle = self.first.end(at, room)?;
        self.next.end(middle, room)
    }

    // Puts both or neither, and so asks for the room of both first.
    fn put(self, out: &mut [u8], at: usize) -> usize {
        match self.end(at, out.len()) {
            None => at,
            Some(_) => self.lay(out, at),
        }
    }

    #[inline(always)]
    fn lay(self, out: &mut [u8], at: usize) -> usize {
        let middle = self.first.lay(out, at);
        self.next.lay(out, middle)
    }
}

// Puts a line at the front of the lent output and gives its length. Refuses with 4 where the output is shorter than the
// line, and then leaves it; what lies beyond the line is untouched.
// Always inlined, as `lay` of two pieces is: where it is called the texts' lengths are known, and each is a store or two.
#[inline(always)]
pub fn put_line<P: Piece>(line: P, out: &mut [u8]) -> Result<usize, Refusal>
    ensures { lent (P.bytes line) out.old ≡ (says (λ bytes. bytes) result, out.new) }
{
    match line.end(0, out.len()) {
        None => Err(Refusal::Room),
        Some(_) => Ok(line.lay(out, 0)),
    }
}
