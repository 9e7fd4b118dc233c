// Words of half cells, for a shifter: bytes to words, and back. Each result stands at the front of the lent output,
// `count` is its length, and the rest of the output is untouched.
ghost use Rattle.std.specs.Prelude.{◌≡◌};
ghost use Rattle.halfcells.specs.Answers.{encoded, decoded};
ghost use Rattle.siengulot.specs.Crossing.{crossed, crossing};

use crate::answers::crosses;

// Encodes a message. Gives a word of half cells for each byte.
// Refuses with 3 (more than 128 bytes), 4: the output is left, and `count` is 0.
pub fn siengulot_encode(
    bytes: &[u8],
    out: &mut [u16],
    place: &mut usize,
    count: &mut usize,
) -> usize
    ensures { crossing crossed (encoded bytes.now out.old)
        ≡ ((result, place.new, count.new), out.new) }
{
    let encoded = halfcells::encode(bytes, out);
    crosses(encoded, place, count)
}

// Decodes words of half cells. Gives a byte for each word.
// Refuses with 3 (more than 128 words), 11 (the place of the first cell with no edge at its start), 4: the output is
// left, and `count` is 0.
pub fn siengulot_decode(
    words: &[u16],
    out: &mut [u8],
    place: &mut usize,
    count: &mut usize,
) -> usize
    ensures { crossing crossed (decoded words.now out.old)
        ≡ ((result, place.new, count.new), out.new) }
{
    let decoded = halfcells::decode(words, out);
    crosses(decoded, place, count)
}
