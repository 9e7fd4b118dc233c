// Taking a case apart: its operation, its numbers and its lists.
ghost use Rattle.std.specs.Prelude.{◌≡◌, ltb, MatchOption, ◌*◌, ◌+◌, ◌-◌, ◌%◌, ◌<◌, ◌≤◌, length, take, drop, get_or};
ghost use Rattle.std.specs.Prelude.{slice_index, EachIndex};
ghost use Rattle.cases.specs.Reading.{first_of, before_first, after_first, begins_a_case, laid, with_room, copied_onto};
ghost use Rattle.cases.specs.Reading.{copied_size};
ghost use Rattle.measure.specs.Choose.{choose};
ghost use Rattle.cases.specs.Reading.{digit_of, goes_on, from_digit, value_on, digits_on, first_digit, times_of};
ghost use Rattle.cases.specs.Reading.{times_size, entry_number, entry_times, entry_size, number_at, numbers_in};
ghost use Rattle.cases.specs.Reading.{room_of, entries_of, written, written_to, repeated, repeated_to};
ghost use Rattle.cases.specs.Reading.{listed, listed_size, listed_or_out, listed_or_out_size, operation_in};

// The first place of a text that has a sign, and its end where none has.
pub fn find(text: &[u8], sign: u8) -> usize
    ensures found { result ≡ first_of sign text.now }
    ensures within { result ≤ length text.now }
{
    text.iter()
        .position(|other| *other == sign)
        .unwrap_or(text.len())
}

// Whether a line is a case.
pub fn is_case(line: &[u8]) -> bool
    ensures { result ≡ begins_a_case line.now }
{
    match line.first() {
        Some(first) => *first != b'#',
        None => false,
    }
}

// The text before the first of a sign, or all of it where there is none.
pub fn until(text: &[u8], sign: u8) -> &[u8]
    ensures { result.now ≡ before_first sign text.now }
{
    let end = find(text, sign);
    &text[..end]
}

// The text after the first of a sign, and nothing where there is none.
pub fn after(text: &[u8], sign: u8) -> &[u8]
    ensures { result.now ≡ after_first sign text.now }
{
    let at = find(text, sign);
    text.get(at + 1..).unwrap_or_default()
}

// The name of a case's operation; empty where nothing follows it.
pub fn operation(case: &[u8]) -> &[u8]
    ensures { result.now ≡ operation_in case.now }
{
    let words = after(after(case, b':'), b' ');
    if after(words, b' ').is_empty() {
        return &[];
    }
    until(words, b' ')
}

// A number at the start of a text, and the text after it.
#[derive(Clone, Copy)]
struct Read<'a> {
    value: usize,
    rest: &'a [u8],
}

// A number of more digits is not read.
const LONG: usize = 100_000_000_000_000_000;

// Whether a sign is a digit.
fn is_digit(sign: u8) -> bool
    ensures { result ≡ ltb (digit_of sign) 10 }
{
    sign.is_ascii_digit()
}

// A number with one digit more, and nothing where the sign is no digit or the number has eighteen digits.
fn longer(value: usize, sign: u8) -> Option<usize>
    ensures { result ≡ choose (goes_on value sign) (Some (value * 10 + digit_of sign)) None }
{
    if !is_digit(sign) {
        return None;
    }
    if LONG <= value {
        return None;
    }
    Some(value * 10 + usize::from(sign - b'0'))
}

// The number whose digits begin a text, 0 where none does. It has eighteen digits at most.
fn number(text: &[u8]) -> Read<'_>
    ensures value { result.value ≡ value_on 0 text.now }
    ensures rest { result.rest.now ≡ drop (digits_on 0 text.now) text.now }
{
    let mut value = 0;
    let mut rest = text;
    while let Some((sign, after)) = rest.split_first() {
        match longer(value, *sign) {
            Some(more) => {
                value = more;
                rest = after;
            }
            None => return Read { value, rest },
        }
    }
    Read { value, rest }
}

// A text from its first digit on; nothing of it where it has none.
fn from_digit(text: &[u8]) -> &[u8]
    ensures { result.now ≡ from_digit text.now }
{
    let before = text
        .iter()
        .position(|sign| is_digit(*sign))
        .unwrap_or(text.len());
    &text[before..]
}

// An entry of a list: its number, how often it stands there, and the text after it.
#[derive(Clone, Copy)]
struct Entry<'a> {
    number: usize,
    times: usize,
    rest: &'a [u8],
}

// How often an entry stands that such a text follows: as often as an x and a number after it say, or else once.
fn times(text: &[u8]) -> Read<'_>
    ensures value { result.value ≡ times_of text.now }
    ensures rest { result.rest.now ≡ drop (times_size text.now) text.now }
{
    match text.split_first() {
        Some((b'x', after)) => number(after),
        _ => Read {
            value: 1,
            rest: text,
        },
    }
}

// The first entry of a text, if it has one.
fn first_entry(text: &[u8]) -> Option<Entry<'_>>
    ensures { MatchOption result (length text.now ≤ first_digit text.now)
        (λ entry. (first_digit text.now < length text.now)
        × (entry.number ≡ entry_number text.now)
        × (entry.times ≡ entry_times text.now)
        × (entry.rest.now ≡ drop (entry_size text.now) text.now)) }
{
    let digits = from_digit(text);
    if digits.is_empty() {
        return None;
    }
    let first = number(digits);
    let many = times(first.rest);
    Some(Entry {
        number: first.value,
        times: many.value,
        rest: many.rest,
    })
}

// The number at a place of a list of numbers, 0 past its end.
fn at_place(text: &[u8], place: usize) -> usize
    ensures { result ≡ number_at place text.now }
{
    let mut left = place;
    let mut rest = text;
    while let Some(entry) = first_entry(rest) {
        if left < entry.times {
            return entry.number;
        }
        left -= entry.times;
        rest = entry.rest;
    }
    0
}

// Fills a list of numbers with those that a text says, and with 0 after them.
pub fn number_list(text: &[u8], list: &mut [usize])
    ensures { EachIndex list.new (λ place. slice_index list.new place ≡ number_at place text.now) }
{
    for (i, number) in list.iter_mut().enumerate() {
        *number = at_place(text, i);
    }
}

// The first numbers of a case, in their order, and 0 after the last.
pub fn numbers_of<const COUNT: usize>(case: &[u8]) -> [usize; COUNT]
    ensures { result ≡ numbers_in COUNT case.now }
{
    let mut numbers = [0; COUNT];
    number_list(until(after(case, b':'), b'|'), &mut numbers);
    numbers
}

// A number as a byte; what is left when it is divided by 256, where it is none. (A TryFrom would have a refusal here
// that never comes.)
pub fn byte(n: usize) -> u8
    ensures { result ≡ n % 256 }
{
    (n % 256) as u8
}

// Puts an entry into a list, so often, from a place on, and gives the place after the last. What has no room is left
// out.
fn put(list: &mut [u8], from: usize, entry: u8, count: usize) -> usize
    requires { from ≤ length list.old }
    ensures written { list.new ≡ laid from entry (with_room from count list.old) list.old }
    ensures next { result ≡ from + with_room from count list.old }
    ensures within { result ≤ length list.old }
{
    let end = from + count.min(list.len() - from);
    list[from..end].fill(entry);
    end
}

// Puts the entries that a text names into a list, from a place on, and gives the place after the last.
fn entries(text: &[u8], list: &mut [u8], from: usize) -> usize
    requires { from ≤ length list.old }
    ensures written { list.new ≡ written from (entries_of text.now) list.old }
    ensures next { result ≡ written_to from (entries_of text.now) list.old }
    ensures within { result ≤ length list.old }
{
    let mut size = from;
    let mut rest = text;
    while let Some(entry) = first_entry(rest) {
        size = put(list, size, byte(entry.number), entry.times);
        rest = entry.rest;
    }
    size
}

// Goes over the first entries of a list again and again until there are so many. Each entry is read from the list that
// it is written to, so the loop goes by places.
#[tactic(auto, using(crate::proofs::Laying::gone_on, crate::proofs::Laying::gone_over_all))]
fn over_again(list: &mut [u8], size: usize, most: usize) -> usize
    requires { size ≤ length list.old }
    ensures repeated { list.new ≡ repeated size most list.old }
    ensures next { result ≡ repeated_to size most list.old }
    ensures within { result ≤ length list.old }
{
    let end = most.min(list.len());
    for at in size..end {
        list[at] = list[at - size];
    }
    size.max(end)
}

// Puts the list at the start of a text into a lent one, and gives how many entries it has.
pub fn list(text: &[u8], list: &mut [u8]) -> usize
    ensures listed { list.new ≡ listed text.now list.old }
    ensures size { result ≡ listed_size text.now list.old }
    ensures within { result ≤ length list.old }
{
    let own = until(until(text, b'|'), b'>');
    let size = entries(until(own, b'.'), list, 0);
    over_again(list, size, at_place(after(own, b'.'), 0))
}

// The first entries of a list, so many, or all of them where there are fewer.
pub fn front(list: &[u8], size: usize) -> &[u8]
    ensures { result.now ≡ take size list.now }
{
    &list[..size.min(list.len())]
}

// The letter that the word at the start of a text begins with, a space where it is none.
pub fn letter(text: &[u8]) -> u8
    ensures { result ≡ get_or text.now 1 32 }
{
    text.get(1).copied().unwrap_or(b' ')
}

// Copies so many entries of a list, and gives how many; none where there is no room for them.
fn copied(list: &[u8], size: usize, to: &mut [u8]) -> usize
    ensures written { to.new ≡ copied_onto size list.now to.old }
    ensures size { result ≡ copied_size size list.now to.old }
    ensures within { result ≤ length to.old }
{
    let from = front(list, size);
    if to.len() < from.len() {
        return 0;
    }
    let count = from.len();
    to[..count].copy_from_slice(from);
    count
}

// The same as `list`, but for the word `out`: so many entries of another list, and then those that follow the word.
pub fn list_or_out(text: &[u8], out: &[u8], size: usize, lent: &mut [u8]) -> usize
    ensures listed { lent.new ≡ listed_or_out text.now out.now size lent.old }
    ensures size { result ≡ listed_or_out_size text.now out.now size lent.old }
{
    if letter(text) == b'o' {
        let had = copied(out, size, lent);
        return entries(until(until(text, b'|'), b'>'), lent, had);
    }
    list(text, lent)
}

// Readies a lent output for a case: gives how many entries it is to have, no more than are there, and fills them with a
// number that no operation writes.
pub fn room(case: &[u8], out: &mut [u8]) -> usize
    ensures filled { out.new ≡ laid 0 9 (with_room 0 (room_of case.now) out.old) out.old }
    ensures size { result ≡ with_room 0 (room_of case.now) out.old }
    ensures within { result ≤ length out.old }
{
    put(out, 0, 9, at_place(after(case, b'>'), 0))
}
