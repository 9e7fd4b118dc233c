// Stored plans: they have a trail pad after each row, and are read into plans that have none.
#![tactic(auto)]

ghost use Rattle.std.specs.Prelude.{◌≡◌, true, ◌≤◌, ◌<◌, length, MatchOption};
ghost use Rattle.measure.specs.Ranges.{pad_most};
ghost use Rattle.measure.specs.Lists.{first_above, onto};
ghost use Rattle.stored.specs.Stored.{joined, dropped};
ghost use Rattle.stored.specs.Answers.{stored_in_range, read_plan, joined_says};

use measure::{PAD_MOST, ROWS_MOST, Refusal, WriterCycles};

// What is told of a stored plan that was read: how many rows it has, whose lead pads stand at the front of the lent
// output, and how many cycles were dropped.
#[derive(Clone, Copy)]
pub struct Plan {
    pub rows: usize,
    pub dropped: WriterCycles,
}

// Tells whether the lists of a stored plan fit one another and all its pads are in range.
fn in_range(leads: &[usize], trails: &[usize]) -> bool
    ensures { result ≡ stored_in_range leads.now trails.now }
{
    (leads.len() >= 1)
        & (trails.len() == leads.len())
        & sender::pads_in_range(leads)
        & sender::pads_in_range(trails)
}

// A stored plan in range, as two lists: a lead pad and a trail pad for each row.
#[derive(Clone, Copy)]
struct Rows<'a> {
    leads: &'a [usize],
    trails: &'a [usize],
    ghost in_range: { stored_in_range leads.now trails.now ≡ true },
}

impl Rows<'_> {
    // Searches for the first row whose joined lead pad is over the greatest.
    #[tactic(auto, using(crate::proofs::Over::over_here))]
    fn first_over(self) -> Option<usize>
        ensures { MatchOption result
            (length self.entry.leads.now
            ≡ first_above pad_most (joined self.entry.leads.now self.entry.trails.now))
            (λ row. (row < length self.entry.leads.now)
            × (row ≡ first_above pad_most (joined self.entry.leads.now self.entry.trails.now))) }
    {
        let mut before = 0;
        for (row, (lead, trail)) in self.leads.iter().zip(self.trails).enumerate() {
            if before + *lead > PAD_MOST {
                return Some(row);
            }
            before = *trail;
        }
        None
    }

    // Writes the joined lead pads to the front of the output, and gives the cycles that are left over.
    fn join_into(self, out: &mut [usize]) -> usize
        requires { length self.leads.now ≤ length out.old }
        ensures { (dropped self.entry.trails.now ≡ result)
            × (onto (joined self.entry.leads.now self.entry.trails.now) out.old ≡ out.new) }
    {
        let mut before = 0;
        for (row, (lead, trail)) in self.leads.iter().zip(self.trails).enumerate() {
            out[row] = before + *lead;
            before = *trail;
        }
        before
    }
}

// Reads a stored plan: each row's trail pad is added to the next row's lead pad, and the last is dropped. Gives the
// number of rows and the cycles that were dropped.
// Refuses with 1 (no row; not as many trail pads as lead pads; a pad out of range), then with 1 at its place the first
// row whose joined lead pad is above 65,535, 3 (more than 1,024 rows), 4.
// The output holds the joined lead pads at its front and is otherwise untouched; every refusal leaves all of it.
pub fn read_plan(leads: &[usize], trails: &[usize], out: &mut [usize]) -> Result<Plan, Refusal>
    ensures { read_plan leads.now trails.now out.old
        ≡ (joined_says result, out.new) }
{
    if !in_range(leads, trails) {
        return Err(Refusal::Setting(0));
    }
    let rows = Rows { leads, trails };
    if let Some(row) = rows.first_over() {
        return Err(Refusal::Setting(row));
    }
    if leads.len() > ROWS_MOST {
        return Err(Refusal::Limit);
    }
    if out.len() < leads.len() {
        return Err(Refusal::Room);
    }
    let left = rows.join_into(out);
    Ok(Plan {
        rows: leads.len(),
        dropped: WriterCycles(left),
    })
}
