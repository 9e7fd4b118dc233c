// Words of half cells, for a shifter that clocks sixteen of them out at a time: bytes to such words, and back.
#![tactic(auto)]

ghost use Rattle.std.specs.Prelude.{◌≡◌, true, ◌+◌, ◌*◌, ◌^◌, ◌/◌, ◌%◌, ◌<◌, ◌≤◌, length, MatchOption};
ghost use Rattle.std.proofs.lemmas.List.Edits.{sets};
ghost use Rattle.measure.specs.Lists.{onto};
ghost use Rattle.halfcells.specs.HalfCells.{bits_of, words_from, words_of, no_edge_from, first_no_edge};
ghost use Rattle.halfcells.specs.HalfCells.{byte_of, bytes_of};
ghost use Rattle.halfcells.specs.Turns.{level_after, turns_of};
ghost use Rattle.halfcells.specs.Answers.{encoded, decoded, encoded_says, decoded_says};

use measure::{Refusal, WORDS_MOST};
use table::{HIGH, HIGH_WORDS, Table};

mod table;

// The cells of a word.
const CELLS: usize = 8;

// The first half cells of all eight cells, the marks; and the second ones.
const MARKS: u16 = 0xaaaa;

const CODES: u16 = 0x5555;

// Writes the words of bytes from a place on, for a line that enters at a level, and gives the level on which they end.
fn write_words(table: Table, mut level: u16, bytes: &[u8], out: &mut [u16], at: usize) -> u16
    requires { at + length bytes.now ≤ length out.old }
    ensures { (result ≡ level_after level bytes.now)
        × (sets out.old at (words_from level bytes.now) ≡ out.new) }
{
    for (i, byte) in bytes.iter().enumerate() {
        let word = table.word(level, *byte);
        out[at + i] = word;
        level = word % 2;
    }
    level
}

// Writes the words of a message. It goes by eights, so that the compiler writes eight words to a turn: one word to a
// turn takes a quarter more instructions.
fn encode_into(table: Table, bytes: &[u8], out: &mut [u16])
    requires { length bytes.now ≤ length out.old }
    ensures { onto (words_of bytes.now) out.old ≡ out.new }
{
    let mut level = HIGH;
    let mut at = 0;
    for eight in bytes.chunks_exact(8) {
        level = write_words(table, level, eight, out, at);
        at += 8;
    }
    write_words(table, level, &bytes[at..], out, at);
}

// Encodes a message. Gives the number of its words, which is that of its bytes.
// Refuses with 3 (more than 128 bytes), 4. (No setting is taken, and every byte is good: 1 and 2 cannot come up.)
// The output holds the words at its front and is otherwise untouched; every refusal leaves all of it.
pub fn encode(bytes: &[u8], out: &mut [u16]) -> Result<usize, Refusal>
    ensures { encoded bytes.now out.old ≡ (encoded_says result, out.new) }
{
    if WORDS_MOST < bytes.len() {
        return Err(Refusal::Limit);
    }
    if out.len() < bytes.len() {
        return Err(Refusal::Room);
    }
    encode_into(Table { high: &HIGH_WORDS }, bytes, out);
    Ok(bytes.len())
}

// Gives a word's half cells that differ from the one before them, as bits in their places.
fn turns(before: u16, word: u16) -> u16
    requires { before ≤ 1 }
    ensures { result ≡ turns_of before word }
{
    let earlier = (word >> 1) + before * 0x8000;
    word ^ earlier
}

// Gives the marks that have no edge, as bits in their places: 0 where each cell has one.
fn edgeless(before: u16, word: u16) -> u16
    requires { before ≤ 1 }
    ensures { result ≡ 0 → no_edge_from before (bits_of 16 word) ≡ 8 }
{
    MARKS - (turns(before, word) & MARKS)
}

// Tells whether each cell of all words has an edge at its start. It never returns early, so that the compiler can take
// many words at a time.
fn all_edged(words: &[u16]) -> bool
    ensures { result ≡ true → first_no_edge words.now ≡ 8 * length words.now }
{
    let mut missing: u16 = 0;
    let mut before = HIGH;
    for word in words {
        missing |= edgeless(before, *word);
        before = *word % 2;
    }
    missing == 0
}

// Gives a half cell of a word, counted from the last.
fn half(word: u16, place: usize) -> u16
    requires { place < 16 }
    ensures { result ≡ word / 2 ^ place % 2 }
{
    (word >> place) % 2
}

// Searches a word for the first cell with no edge at its start.
fn search_word(before: u16, word: u16) -> Option<usize>
    ensures { MatchOption result (no_edge_from before (bits_of 16 word) ≡ 8)
        (λ cell. (cell < 8) × (cell ≡ no_edge_from before (bits_of 16 word))) }
{
    let mut level = before;
    for cell in 0..CELLS {
        let code = 2 * (CELLS - cell) - 2;
        if half(word, code + 1) == level {
            return Some(cell);
        }
        level = half(word, code);
    }
    None
}

// Searches words for the first cell with no edge at its start, one cell at a time.
fn search(words: &[u16]) -> Option<usize>
    requires { length words.now ≤ 128 }
    ensures { MatchOption result (first_no_edge words.now ≡ 8 * length words.now)
        (λ cell. (cell < 8 * length words.now) × (cell ≡ first_no_edge words.now)) }
{
    let mut before = HIGH;
    for (i, word) in words.iter().enumerate() {
        if let Some(cell) = search_word(before, *word) {
            return Some(CELLS * i + cell);
        }
        before = *word % 2;
    }
    None
}

// Gives the place of the first cell with no edge at its start.
fn first_no_edge(words: &[u16]) -> Option<usize>
    requires { length words.now ≤ 128 }
    ensures { MatchOption result (first_no_edge words.now ≡ 8 * length words.now)
        (λ cell. (cell < 8 * length words.now) × (cell ≡ first_no_edge words.now)) }
{
    if all_edged(words) {
        return None;
    }
    search(words)
}

// Gives the byte of a word. The bits stand where a code differs from its mark, in every second place; three steps move
// them together, by pairs, by fours, by eights.
fn byte_of(word: u16) -> u8
    ensures { result ≡ byte_of word }
{
    let ones = turns(0, word) & CODES;
    let pairs = (ones + (ones >> 1)) & 0x3333;
    let fours = (pairs + (pairs >> 2)) & 0x0f0f;
    let eight = fours + (fours >> 4);
    // Below 256, so `as` cuts nothing off.
    (eight % 256) as u8
}

// Writes the bytes of words.
fn decode_into(words: &[u16], out: &mut [u8])
    requires { length words.now ≤ length out.old }
    ensures { onto (bytes_of words.now) out.old ≡ out.new }
{
    for (at, word) in words.iter().enumerate() {
        out[at] = byte_of(*word);
    }
}

// Decodes words. Gives the number of their bytes, which is that of the words.
// Refuses with 3 (more than 128 words), 11 (the place of the first cell with no edge at its start, counted from the
// first word's first cell), 4. (No setting is taken, and every word is good: 1 and 2 cannot come up.)
// The output holds the bytes at its front and is otherwise untouched; every refusal leaves all of it.
pub fn decode(words: &[u16], out: &mut [u8]) -> Result<usize, Refusal>
    ensures { decoded words.now out.old ≡ (decoded_says result, out.new) }
{
    if WORDS_MOST < words.len() {
        return Err(Refusal::Limit);
    }
    if let Some(cell) = first_no_edge(words) {
        return Err(Refusal::NoEdge(cell));
    }
    if out.len() < words.len() {
        return Err(Refusal::Room);
    }
    decode_into(words, out);
    Ok(words.len())
}
