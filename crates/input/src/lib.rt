// Reading into a list of a fixed size, which is what a program of this repository has for its input.
#![tactic(auto)]

ghost use Rattle.std.specs.Prelude.{◌≤◌, ◌<◌, IfOk, length, take};
ghost use Rattle.std.specs.Io.KnownBytes.{Consumes, IsAtEnd};

use std::io;
use std::io::Read;

// Reads until a list is full or the input ends, and gives how many bytes it has read: those at the front of the list.
// The loop counts them, since each read has as many as it chooses.
pub fn read_full<R: Read>(from: &mut R, into: &mut [u8]) -> io::Result<usize>
    ensures within { IfOk result (λ n. n ≤ length into.old) }
    ensures bytes { IfOk result (λ n. Consumes (R.remaining from.old) (R.remaining from.new) (take n into.new)) }
    ensures all { IfOk result (λ n. n < length into.old → IsAtEnd (R.remaining from.new)) }
{
    let mut done = 0;
    while done < into.len() {
        let n = from.read(&mut into[done..])?;
        if n == 0 {
            break;
        }
        done += n;
    }
    Ok(done)
}
