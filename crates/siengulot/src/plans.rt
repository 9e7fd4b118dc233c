// Stored plans: reading one.
ghost use Rattle.std.specs.Prelude.{◌≡◌};
ghost use Rattle.stored.specs.Answers.{read_plan, joined_says};
ghost use Rattle.siengulot.specs.Crossing.{crossing};
ghost use Rattle.siengulot.specs.StoredPlans.{joined_over};

use crate::answers::{gives, refuses};
use measure::Refusal;
use stored::Plan;

// What reading a stored plan answers: beside the number of rows, the cycles dropped.
fn of_joined(
    answer: Result<Plan, Refusal>,
    place: &mut usize,
    count: &mut usize,
    dropped: &mut usize,
) -> usize
    ensures { joined_over (joined_says answer)
        ≡ (result, place.new, count.new, dropped.new) }
{
    match answer {
        Ok(plan) => {
            *dropped = plan.dropped.0;
            gives(plan.rows, place, count)
        }
        Err(refusal) => {
            *dropped = 0;
            refuses(refusal, place, count)
        }
    }
}

// Reads a stored plan: each row's trail pad is added to the next row's lead pad, and the last is dropped. Gives the
// lead pads at the output's front, the rest of which is untouched, in `count` the number of rows, and in `dropped` the
// cycles of the last trail pad.
// Refuses with 1 (no row; not as many trail pads as lead pads; a pad out of range), then with 1 at its place the first
// row whose lead pad becomes too long, 3 (more than 1,024 rows), 4: the output is left, and `count` and `dropped` are
// 0.
pub fn siengulot_read_plan(
    leads: &[usize],
    trails: &[usize],
    out: &mut [usize],
    place: &mut usize,
    count: &mut usize,
    dropped: &mut usize,
) -> usize
    ensures { crossing joined_over
        (read_plan leads.now trails.now out.old)
        ≡ ((result, place.new, count.new, dropped.new), out.new) }
{
    let answer = stored::read_plan(leads, trails, out);
    of_joined(answer, place, count, dropped)
}
