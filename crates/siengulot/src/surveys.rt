// The survey of a region: its numbers, and its lines.
ghost use Rattle.std.specs.Prelude.{◌≡◌, [], ◌∷◌, length};
ghost use Rattle.settings.specs.Survey.{region, surveyed, surveyed_says};
ghost use Rattle.region.specs.Answers.{survey_lines};
ghost use Rattle.siengulot.specs.Crossing.{crossed, crossing};
ghost use Rattle.siengulot.specs.Surveys.{surveyed_over};

use crate::answers::{crosses, gives, refuses};
use measure::Refusal;
use settings::Figures;

// Gives the smallest margins one after another, and their places.
fn give_smallest(f: Figures, margins: &mut [i64; 3], places: &mut [usize; 3])
    ensures { (f.m1.margin ∷ f.m2.margin ∷ f.m3.margin ∷ [] ≡ margins.new)
        × (f.m1.place ∷ f.m2.place ∷ f.m3.place ∷ [] ≡ places.new) }
{
    let one = f.m1;
    let two = f.m2;
    let three = f.m3;
    *margins = [one.margin, two.margin, three.margin];
    *places = [one.place, two.place, three.place];
}

// What the survey answers.
fn of_surveyed(
    answer: Result<Option<Figures>, Refusal>,
    boards: usize,
    margins: &mut [i64; 3],
    places: &mut [usize; 3],
    accepted: &mut usize,
    place: &mut usize,
    count: &mut usize,
) -> usize
    ensures { surveyed_over boards (record { margins = margins.entry.now; places = places.old })
        (surveyed_says answer)
        ≡ (
          (result, place.new, count.new, accepted.new),
          record { margins = margins.exit.now; places = places.new },
        ) }
{
    match answer {
        Ok(None) => {
            *accepted = 0;
            gives(0, place, count)
        }
        Ok(Some(f)) => {
            give_smallest(f, margins, places);
            *accepted = f.accepted;
            gives(boards, place, count)
        }
        Err(refusal) => {
            *accepted = 0;
            refuses(refusal, place, count)
        }
    }
}

// The survey of a region of boards with steady clocks, each with its a, b, g, k, w and r in six lists. Gives in `count`
// how many boards there are and in `accepted` how many the judge accepts, and the smallest of M1, M2 and M3, each with
// the first place that has it. With no boards `count` is 0, and the margins and places are left.
// Refuses with 1 at place 0 lists of unequal length, with 1 at its place the first board that has a setting out of
// range, 3 (more than 4,096 boards): the margins and places are left, and `count` and `accepted` are 0.
pub fn siengulot_survey(
    a: &[usize],
    b: &[usize],
    g: &[usize],
    k: &[usize],
    w: &[usize],
    r: &[usize],
    margins: &mut [i64; 3],
    places: &mut [usize; 3],
    accepted: &mut usize,
    place: &mut usize,
    count: &mut usize,
) -> usize
    ensures { surveyed_over (length a.now)
        (record { margins = margins.entry.now; places = places.old })
        (surveyed (region a.now b.now g.now k.now w.now
        r.now))
        ≡ (
          (result, place.new, count.new, accepted.new),
          record { margins = margins.exit.now; places = places.new },
        ) }
{
    let boards = a.len();
    let answer = settings::survey(a, b, g, k, w, r);
    of_surveyed(answer, boards, margins, places, accepted, place, count)
}

// The survey of a region as lines: how many boards are accepted, and the smallest of M1, M2 and M3, each with the first
// place that has it. Gives the lines at the output's front, and in `count` how many bytes they have.
// Refuses as `siengulot_survey` does, then with 4: the output is left, and `count` is 0.
pub fn siengulot_survey_lines(
    a: &[usize],
    b: &[usize],
    g: &[usize],
    k: &[usize],
    w: &[usize],
    r: &[usize],
    out: &mut [u8],
    place: &mut usize,
    count: &mut usize,
) -> usize
    ensures { crossing crossed (survey_lines (region a.now b.now g.now
        k.now w.now r.now) out.old)
        ≡ ((result, place.new, count.new), out.new) }
{
    let lines = region::survey_lines(a, b, g, k, w, r, out);
    crosses(lines, place, count)
}
