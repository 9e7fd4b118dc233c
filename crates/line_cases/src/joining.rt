// Reading a stored plan.
use crate::numbers::{MOST, numbers};
use cases::{reading, show};
use measure::Refusal;
use std::io;
use stored::Plan;

// Prints what is told of a plan that was read, or why it was refused.
fn told(rt: &impl Print, answer: Result<Plan, Refusal>) -> io::Result<()> {
    match answer {
        Ok(plan) => {
            show::count(rt, plan.rows)?;
            show::named(rt, b" dropped ", plan.dropped.0)
        }
        Err(refusal) => show::refused(rt, refusal),
    }
}

// Reads a plan, and shows what the output holds then.
fn read(rt: &impl Print, leads: &[usize], trails: &[usize], out: &mut [usize]) -> io::Result<()> {
    told(rt, stored::read_plan(leads, trails, out))?;
    show::text(rt, b" |")?;
    show::numbers(rt, out)
}

// how many places the output has, and the leads and the trails
pub fn read_plan(rt: &impl Print, case: &[u8]) -> io::Result<usize> {
    let [room] = reading::numbers_of::<1>(case);
    let first = reading::after(case, b'|');
    let second = reading::after(first, b'|');
    let (mut leads, mut trails) = ([0; MOST], [0; MOST]);
    let leads = numbers(reading::until(first, b'|'), &mut leads);
    let trails = numbers(second, &mut trails);
    let mut out = [9; MOST];
    read(rt, leads, trails, &mut out[..room.min(MOST)])?;
    Ok(0)
}
