// The counted receiver: n bits out of a list of reads, with no quiet.
#![tactic(auto)]

ghost use Rattle.std.specs.Prelude.{◌≡◌, ◌+◌, ◌^◌, ◌≤◌, ◌<◌, length, drop};
ghost use Rattle.measure.specs.Cells.{bit_of};
ghost use Rattle.counted.specs.Counted.{from_mark, counted, current as current_read};
ghost use Rattle.counted.specs.declared.Stop.TheVariants.{Refused};
ghost use Rattle.counted.specs.Answers.{counted_in_range, counted_into, counted_bits, counted_says};

use measure::{BITS_MOST, ENTRIES_MOST, HIGH, ReadCycles, Refusal, SAMPLING_LEAST, SAMPLING_MOST};

// So many bits, which stand at the front of the lent output; and the place of the current read.
#[derive(Clone, Copy)]
pub struct Found {
    pub bits: usize,
    pub at: usize,
}

// Why the counted receiver does not give all n bits.
#[derive(Clone, Copy)]
pub enum Stop {
    // Refusal 5: the reads ran out after fewer bits.
    RanOut(Found),
    Refused(Refusal),
}

impl From<Refusal> for Stop {
    ghost from_gives = { λ refusal stop. stop ≡ Refused refusal };

    fn from(refusal: Refusal) -> Stop {
        Stop::Refused(refusal)
    }
}

// Tells whether k, n and the level in force are in range.
fn in_range(k: ReadCycles, n: usize, level: u8) -> bool
    ensures { result ≡ counted_in_range k.0 n level }
{
    measure::between(SAMPLING_LEAST, SAMPLING_MOST, k.0) & (n <= BITS_MOST) & (level <= HIGH)
}

// Gives the reads from the mark on: from the first that is unlike the level in force.
fn from_mark(reads: &[u8], level: u8) -> &[u8]
    ensures { result.now ≡ from_mark level reads.now }
{
    match reads.iter().position(|read| *read != level) {
        Some(mark) => &reads[mark..],
        None => &reads[reads.len()..],
    }
}

// Gives the bit that a mark and its sample stand for.
fn bit(mark: u8, sample: u8) -> u8
    ensures { result ≡ bit_of mark sample }
{
    u8::from(sample != mark)
}

// Finds n bits, or as many as there are, and writes them.
fn count_into(
    k: ReadCycles,
    n: usize,
    level: u8,
    reads: &[u8],
    out: &mut [u8],
) -> Result<Found, Stop>
    requires { n ≤ length out.old }
    ensures { counted_into n (counted k.0 n level reads.now)
        (current_read k.0 n level reads.now) out.old ≡ (counted_says result, out.new) }
{
    let front = &mut out[..n];
    let mut held = level;
    let mut left = reads;
    for (i, place) in front.iter_mut().enumerate() {
        let marked = from_mark(left, held);
        if marked.len() <= k.0 {
            return Err(Stop::RanOut(Found {
                bits: i,
                at: reads.len() - left.len(),
            }));
        }
        left = &marked[k.0..];
        held = left[0];
        *place = bit(marked[0], held);
    }
    Ok(Found {
        bits: n,
        at: reads.len() - left.len(),
    })
}

// The counted receiver. Gives the n bits of a message that starts with the level in force, each from its mark and the
// read k places later.
// Refuses with 1 (k, n or level), 3 (more than 1,048,576 reads), 2 (the place of the first read that is no level), 4
// (an output shorter than n), then 5.
// The output holds the bits found at its front, fewer than n with refusal 5, and is otherwise untouched; refusals 1 to
// 4 leave all of it.
// The place of the current read, which is the last sample, or 0 where no bit was found, comes with both. To go on, lend
// the reads from there on, with that sample as the level, or the same level as before where no bit was found: n bits
// and then m are the n + m bits that one call would find, also where n + m is above 1,024.
#[tactic(auto, unfolding(crate::specs::Answers::counted_bits))]
pub fn count_bits(
    k: ReadCycles,
    n: usize,
    level: u8,
    reads: &[u8],
    out: &mut [u8],
) -> Result<Found, Stop>
    ensures { counted_bits k.0 n level reads.now out.old
        ≡ (counted_says result, out.new) }
{
    if !in_range(k, n, level) {
        return Err(Stop::Refused(Refusal::Setting(0)));
    }
    if reads.len() > ENTRIES_MOST {
        return Err(Stop::Refused(Refusal::Limit));
    }
    measure::check_entries(reads, HIGH)?;
    if out.len() < n {
        return Err(Stop::Refused(Refusal::Room));
    }
    count_into(k, n, level, reads, out)
}
