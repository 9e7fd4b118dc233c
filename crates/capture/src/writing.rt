// Writing a capture: its settings, its first level and the lengths of its runs as numbers.
ghost use Rattle.std.specs.Prelude.{◌≡◌, true, [], ◌∷◌, ◌++◌, List, ℕ, ◌+◌, ◌-◌, ◌≤◌, ◌<◌, length};
ghost use Rattle.std.proofs.lemmas.List.Edits.{sets};
ghost use Rattle.std.proofs.Common.{refl, ap, ◌∙◌, arith, length-append};
ghost use Rattle.std.proofs.Math.Seq.{length-sets};
ghost use Rattle.measure.proofs.Laid.{sets_joined};
ghost use Rattle.std.specs.Iterator.{YieldsFirst, item_count};
ghost use Rattle.measure.specs.Ranges.{entries_most, row_settings_fit};
ghost use Rattle.capture.specs.Numbers.{bound, further, spelled};
ghost use Rattle.capture.specs.Writing.{capture_of, first_level, runs_of};
ghost use Rattle.capture.specs.Answers.{written, written_says};

use crate::TOP_BIT;
use measure::{ENTRIES_MOST, HIGH, Refusal, RowSettings, check_entries};

// What the bytes of a capture are put into, one after another.
trait Sink {
    // How many bytes it still has room for.
    ghost room: { Self → ℕ };

    // What it was, the bytes that it took, and what it is with them.
    ghost took: { Self → List ℕ → Self → Type 0 };

    fn put(&mut self, byte: u8)
        requires { 0 < room self.old }
        ensures { took self.old (byte ∷ []) self.new };

    // It took no bytes; it took bytes and then others; and its room shrinks by those that it took.
    ghost none: { (s : Self) → took s [] s };

    ghost joined: { (s t u : Self) (xs ys : List ℕ) → took s xs t → took t ys u → took s (xs ++ ys) u };

    ghost left: { (s t : Self) (xs : List ℕ) → took s xs t → room s ≤ room t + length xs };
}

// The number of bytes alone, which has room up to the greatest usize.
impl Sink for usize {
    ghost room = { λ n. 18446744073709551615 - n };

    ghost took = { λ n xs m. m ≡ n + length xs };

    ghost none = { λ s. Prim.omega arith };

    ghost joined = { λ s t u xs ys e f. Prim.omega (arith, length-append xs ys) };

    ghost left = { λ s t xs e. Prim.omega arith };

    fn put(&mut self, _byte: u8) {
        *self += 1;
    }
}

// A lent output, and the place of the next byte.
#[derive(Drop)]
struct Output<'a> {
    bytes: &'a mut [u8],
    at: usize,
}

impl<'a> Sink for Output<'a> {
    ghost room = { λ s. length s.bytes.now - s.at };

    ghost took = { λ s xs t. (t.bytes.ghost_name ≡ s.bytes.ghost_name)
        × ((t.bytes.now ≡ sets s.bytes.now s.at xs) × (t.at ≡ s.at + length xs)) };

    ghost none = { λ s. (refl, (refl, Prim.omega arith)) };

    ghost joined = { λ s t u xs ys e f. (
      f.0 ∙ e.0,
      (Prim.cc (e.1.0, e.1.1, f.1.0, sets_joined s.bytes.now xs ys s.at), Prim.omega (arith, length-append xs ys)),
    ) };

    ghost left = { λ s t xs e. Prim.omega (arith, ap length e.1.0, length-sets s.bytes.now s.at xs) };

    fn put(&mut self, byte: u8) {
        self.bytes[self.at] = byte;
        self.at += 1;
    }
}

// Puts a number. It is proved that `as` cuts nothing off here; `u8::try_from` would only add an arm that never runs.
fn put_number<S: Sink>(v: usize, sink: &mut S)
    requires in_range { v < bound further }
    requires room { length (spelled v) ≤ S.room sink.old }
    ensures { S.took sink.old (spelled v) sink.new }
{
    let mut left = v;
    while TOP_BIT <= left {
        let low = left % TOP_BIT;
        let byte = low + TOP_BIT;
        sink.put(byte as u8);
        left = left / TOP_BIT;
    }
    sink.put(left as u8);
}

// The lengths of the runs of reads, one after another.
#[derive(Drop)]
struct Runs<'a>(&'a [u8]);

impl<'a> Iterator for Runs<'a> {
    type Item = usize;

    ghost next_gives = { YieldsFirst (λ runs. runs_of runs.0.now) };

    ghost remaining = { item_count (λ runs. runs_of runs.0.now) };

    fn next(&mut self) -> Option<usize> {
        let (level, others) = self.0.split_first()?;
        let alike = others
            .iter()
            .position(|read| read != level)
            .unwrap_or(others.len());
        self.0 = &others[alike..];
        Some(1 + alike)
    }
}

// The first level: 1 where there are no reads at all.
fn first_level(reads: &[u8]) -> usize
    ensures { (result ≡ first_level reads.now) × (result < 256) }
{
    usize::from(*reads.first().unwrap_or(&HIGH))
}

// Puts the capture of settings and reads: once into a count, to learn its size, and once into the output.
fn put_capture<S: Sink>(settings: RowSettings, reads: &[u8], sink: &mut S)
    requires fit { row_settings_fit settings.k.0 settings.n settings.q.0 ≡ true }
    requires few { length reads.now ≤ entries_most }
    requires room { length (capture_of settings.k.0 settings.n settings.q.0 reads.now) ≤ S.room sink.old }
    ensures { S.took sink.old (capture_of settings.k.0 settings.n settings.q.0 reads.now) sink.new }
{
    let level = first_level(reads);
    put_number(settings.k.0, sink);
    put_number(settings.n, sink);
    put_number(settings.q.0, sink);
    put_number(level, sink);
    for run in Runs(reads) {
        put_number(run, sink);
    }
}

// Puts the capture at the front of an output that has room for it.
fn write_into(settings: RowSettings, reads: &[u8], out: &mut [u8])
    requires fit { row_settings_fit settings.k.0 settings.n settings.q.0 ≡ true }
    requires few { length reads.now ≤ entries_most }
    requires room { length (capture_of settings.k.0 settings.n settings.q.0 reads.now) ≤ length out.old }
    ensures { out.new ≡ sets out.old 0 (capture_of settings.k.0 settings.n settings.q.0 reads.now) }
{
    let mut output = Output { bytes: out, at: 0 };
    put_capture(settings, reads, &mut output);
}

// Writes settings and reads as a capture at the front of the lent output, and gives how many bytes it has. Refuses with
// 1 for k, n or Q out of range, with 3 for too many reads, with 2 at the first entry that is no level, and with 4 where
// the output is shorter than the capture. After a refusal the output is untouched, and after success what lies beyond
// the capture.
pub fn write_capture(settings: RowSettings, reads: &[u8], out: &mut [u8]) -> Result<usize, Refusal>
    ensures { written settings.k.0 settings.n settings.q.0 reads.now out.old
        ≡ (written_says result, out.new) }
{
    if !settings.fit() {
        return Err(Refusal::Setting(0));
    }
    if ENTRIES_MOST < reads.len() {
        return Err(Refusal::Limit);
    }
    check_entries(reads, HIGH)?;
    let mut size: usize = 0;
    put_capture(settings, reads, &mut size);
    if out.len() < size {
        return Err(Refusal::Room);
    }
    write_into(settings, reads, out);
    Ok(size)
}
