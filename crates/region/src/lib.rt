// The report of a region: what the survey finds, as four lines on the front of a lent output.
#![tactic(auto)]

ghost use Rattle.std.specs.Prelude.{◌≡◌, ◌≤◌, length};
ghost use Rattle.measure.specs.Refusals.{lent};
ghost use Rattle.text.specs.Putting.{put_at};
ghost use Rattle.settings.specs.Survey.{region, none, told};
ghost use Rattle.region.specs.Lines.{m1_text, margin_line, report_lines};
ghost use Rattle.region.specs.Answers.{survey_lines, put_says};

use measure::Refusal;
use settings::{Figures, Smallest};
use text::{number_size, put_number, put_signed, put_text, signed_size};

// The fixed words of the lines.
const ACCEPTED: [u8; 9] = *b"accepted ";

const M1: [u8; 3] = *b"M1 ";

const M2: [u8; 3] = *b"M2 ";

const M3: [u8; 3] = *b"M3 ";

const AT: [u8; 4] = *b" at ";

const FEED: [u8; 1] = *b"\n";

// The lines of a region with no boards.
const NO_BOARDS: [u8; 41] = *b"accepted 0\nM1 - at -\nM2 - at -\nM3 - at -\n";

// Gives how many bytes the line of a margin has.
#[tactic(auto, using(settings::proofs::Signs::read_back, crate::proofs::Pieces::line_length))]
fn line_size(m: Smallest) -> usize
    ensures size { result ≡ length (margin_line m1_text m) }
    ensures most { result ≤ 49 }
{
    M1.len() + signed_size(m.margin) + AT.len() + number_size(m.place) + FEED.len()
}

// Puts the line of a margin from a place on, and gives the place after it. Where it has no room the output is
// untouched, and the place comes back as it was. The lines are put one by one, and not as one value of pieces
// (`text::put_line`): as that value they take 1,720 bytes of stack, where C is promised 576, and the archive would need
// `memmove` too.
fn put_line(out: &mut [u8], at: usize, name: &[u8; 3], m: Smallest) -> usize
    ensures { put_at (margin_line name.now m) at out.old ≡ (result, out.new) }
{
    let room = out.len();
    if room < at {
        return at;
    }
    if room - at < line_size(m) {
        return at;
    }
    let a = put_text(out, at, name);
    let b = put_signed(out, a, m.margin);
    let c = put_text(out, b, &AT);
    let d = put_number(out, c, m.place);
    put_text(out, d, &FEED)
}

// Puts the lines of a region with no boards.
#[tactic(auto, using(crate::proofs::NoBoards::none_short))]
fn put_none(out: &mut [u8]) -> Result<usize, Refusal>
    ensures { lent (report_lines none) out.old ≡ (put_says result, out.new) }
{
    if out.len() < NO_BOARDS.len() {
        return Err(Refusal::Room);
    }
    Ok(put_text(out, 0, &NO_BOARDS))
}

// Puts the lines of a region's figures.
#[tactic(auto, using(text::proofs::Digits::decimal_most))]
fn put_figures(f: Figures, out: &mut [u8]) -> Result<usize, Refusal>
    ensures { lent (report_lines (told f)) out.old ≡ (put_says result, out.new) }
{
    let first = ACCEPTED.len() + number_size(f.accepted) + FEED.len();
    if out.len() < first + line_size(f.m1) + line_size(f.m2) + line_size(f.m3) {
        return Err(Refusal::Room);
    }
    let a = put_text(out, 0, &ACCEPTED);
    let b = put_number(out, a, f.accepted);
    let c = put_text(out, b, &FEED);
    let d = put_line(out, c, &M1, f.m1);
    let e = put_line(out, d, &M2, f.m2);
    Ok(put_line(out, e, &M3, f.m3))
}

// Surveys a region of boards, each with its a, b, g, k, w and r in six lists, and puts what is found as lines at the
// front of the lent output: how many boards are accepted, and the smallest of each of M1, M2 and M3 with the first
// place that has it. Gives how many bytes the lines have; what lies beyond them is untouched.
// Refuses as `settings::survey` does, and then with 4 where the output is shorter than the lines; each refusal leaves
// the output. It takes the lists one by one, as C lends them.
pub fn survey_lines(
    a: &[usize],
    b: &[usize],
    g: &[usize],
    k: &[usize],
    w: &[usize],
    r: &[usize],
    out: &mut [u8],
) -> Result<usize, Refusal>
    ensures { survey_lines (region a.now b.now g.now k.now
        w.now r.now) out.old ≡ (put_says result, out.new) }
{
    match settings::survey(a, b, g, k, w, r)? {
        None => put_none(out),
        Some(figures) => put_figures(figures, out),
    }
}
