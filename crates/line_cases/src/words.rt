// Words of half cells. In a case a word is two entries of a list, its higher byte first.
use cases::show;
use measure::WORDS_MOST;
use std::io;

// No list of words is longer: one more than there may be.
const WORDS: usize = WORDS_MOST + 1;

// Puts the words that entries are into a lent list, as many as it has room for.
fn take(entries: &[u8], words: &mut [u16]) {
    for (word, pair) in words.iter_mut().zip(entries.chunks_exact(2)) {
        *word = u16::from_be_bytes([pair[0], pair[1]]);
    }
}

// Puts words into a lent list of entries, as many as it has room for.
fn give(words: &[u16], entries: &mut [u8]) {
    for (pair, word) in entries.chunks_exact_mut(2).zip(words) {
        pair.copy_from_slice(&word.to_be_bytes());
    }
}

// the bytes
pub fn encode(rt: &impl Print, bytes: &[u8], out: &mut [u8]) -> io::Result<usize> {
    let mut words = [0u16; WORDS];
    let room = (out.len() / 2).min(WORDS);
    take(out, &mut words);
    let made = show::written(rt, halfcells::encode(bytes, &mut words[..room]))?;
    give(&words, out);
    Ok(made.min(WORDS) * 2)
}

// the words
pub fn decode(rt: &impl Print, entries: &[u8], out: &mut [u8]) -> io::Result<usize> {
    let mut words = [0u16; WORDS];
    let size = (entries.len() / 2).min(WORDS);
    take(entries, &mut words);
    show::written(rt, halfcells::decode(&words[..size], out))
}
