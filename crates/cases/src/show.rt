// Printing what a case gives, on standard output.
ghost use Rattle.std.specs.Prelude.{◌≡◌, IfOk, IfErr};

use measure::{Count, Refusal};
use std::io;

// A list of more entries is printed as a summary.
const SHOWN: usize = 32;

pub fn text(rt: &impl Print, words: &[u8]) -> io::Result<()> {
    rt.write_all(words)
}

pub fn number(rt: &impl Print, n: usize) -> io::Result<()> {
    rt.print(n)
}

// A number after its name.
pub fn named(rt: &impl Print, name: &[u8], n: usize) -> io::Result<()> {
    text(rt, name)?;
    number(rt, n)
}

pub fn refused(rt: &impl Print, refusal: Refusal) -> io::Result<()> {
    named(rt, b" refused ", refusal.number())?;
    named(rt, b" at ", refusal.place())
}

// Prints how much an operation has written, or why it refused, and gives how much that is.
pub fn written<T: Count>(rt: &impl Print, answer: Result<T, Refusal>) -> io::Result<usize>
    ensures made { IfOk answer (λ wrote. IfOk result (λ made. made ≡ T.number wrote)) }
    ensures none { IfErr answer (λ refusal. IfOk result (λ made. made ≡ 0)) }
{
    match answer {
        Ok(result) => {
            let made = result.count();
            count(rt, made)?;
            Ok(made)
        }
        Err(refusal) => {
            refused(rt, refusal)?;
            Ok(0)
        }
    }
}

fn entries(rt: &impl Print, list: &[u8]) -> io::Result<()> {
    for entry in list {
        count(rt, usize::from(*entry))?;
    }
    Ok(())
}

// How many entries of a list are this one. A chain with `filter` and `count` takes more than twice the time.
fn times(list: &[u8], entry: u8) -> usize {
    let mut found: usize = 0;
    for other in list {
        if *other == entry {
            found += 1;
        }
    }
    found
}

fn mixed(sum: usize, entry: u8) -> usize {
    (sum % 65521 * 31 + usize::from(entry)) % 65521
}

// A number that each entry of a list changes, by its place as well as by its value.
fn digest(list: &[u8]) -> usize {
    list.iter().fold(0, |sum, entry| mixed(sum, *entry))
}

fn summary(rt: &impl Print, list: &[u8]) -> io::Result<()> {
    named(rt, b" low ", times(list, 0))?;
    named(rt, b" high ", times(list, 1))?;
    named(rt, b" unknown ", times(list, 2))?;
    named(rt, b" digest ", digest(list))
}

// The entries of a list of numbers.
pub fn numbers(rt: &impl Print, list: &[usize]) -> io::Result<()> {
    for n in list {
        count(rt, *n)?;
    }
    Ok(())
}

fn left(rt: &impl Print, list: &[u8]) -> io::Result<()> {
    if SHOWN < list.len() {
        summary(rt, list)
    } else {
        entries(rt, list)
    }
}

// A count after a space.
pub fn count(rt: &impl Print, n: usize) -> io::Result<()> {
    named(rt, b" ", n)
}

// A number after a space, with a minus sign where it is below zero.
pub fn signed(rt: &impl Print, n: i64) -> io::Result<()> {
    text(rt, b" ")?;
    rt.print(n)
}

// A case as it is written, before what it gives.
pub fn case(rt: &impl Print, line: &[u8]) -> io::Result<()> {
    text(rt, line)?;
    text(rt, b" ->")
}

// The end of a case: so many entries of its lent output, if it has one. Many are summed up.
pub fn end(rt: &impl Print, out: &[u8], size: usize) -> io::Result<()> {
    if 0 < size {
        text(rt, b" |")?;
        left(rt, crate::reading::front(out, size))?;
    }
    text(rt, b"\n")
}

pub fn yes(rt: &impl Print) -> io::Result<()> {
    text(rt, b" yes")
}

pub fn no(rt: &impl Print) -> io::Result<()> {
    text(rt, b" no")
}
