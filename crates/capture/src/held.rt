// A capture is read number by number by a reader that carries the bytes it was lent and where it has got to.
ghost use Rattle.std.specs.Prelude.{◌≡◌};
ghost use Rattle.capture.specs.Numbers.{number_at};
ghost use Rattle.capture.specs.Answers.{number_says};
ghost use Rattle.capture.specs.Held.{advanced, begun_reader};

use crate::Number;
use crate::reading::number_at;
use measure::Refusal;

#[derive(Clone, Copy)]
pub struct CaptureReader<'a> {
    src: &'a [u8],
    at: usize,
}

impl<'a> CaptureReader<'a> {
    // Gives a reader of the lent bytes, at their first.
    pub fn new(src: &'a [u8]) -> CaptureReader<'a>
        ensures { result ≡ begun_reader src.entry }
    {
        CaptureReader { src, at: 0 }
    }

    // Gives the reader's place.
    pub fn place(self) -> usize
        ensures { result ≡ self.entry.at }
    {
        self.at
    }

    // Gives the number at the reader's place and the place after it, or its refusal as it came.
    pub fn next(self) -> Result<Number, Refusal>
        ensures { number_at self.entry.src.now self.entry.at ≡ number_says result }
    {
        number_at(self.src, self.at)
    }

    // Gives the reader past the number at its place; where the number is refused, the reader's place is unchanged.
    pub fn advance(self) -> CaptureReader<'a>
        ensures { result ≡ advanced self.entry }
    {
        let Ok(number) = self.next() else {
            return self;
        };
        CaptureReader {
            src: self.src,
            at: number.after,
        }
    }
}
