// Sending: the wave of a message, and the wave of a plan of rows.
#![tactic(auto)]

ghost use Rattle.std.specs.Prelude.{◌≡◌, true, ◌&&◌, List, ◌++◌, ℕ, ◌+◌, ◌*◌, ◌≤◌, ◌<◌, length, replicate};
ghost use Rattle.std.proofs.lemmas.List.Edits.{sets};
ghost use Rattle.measure.specs.Ranges.{subcell, row_bits};
ghost use Rattle.sender.specs.Sending.{opposite, code_level, cells, wave, plan_wave, rows_of};
ghost use Rattle.measure.specs.Refusals.{entries_answer};
ghost use Rattle.sender.specs.Answers.{message_in_range, fitting, padded, plan_in_range};
ghost use Rattle.sender.specs.Answers.{sent_message, sent_plan, sent_says};

use measure::{
    BITS_LEAST, BITS_MOST, ENTRIES_MOST, HIGH, PAD_MOST, ROWS_MOST, Refusal, SUBCELL_LEAST,
    SUBCELL_MOST, WriterCycles,
};

// Gives the level of a cell's code subcell.
fn code_level(before: u8, bit: u8) -> u8
    requires { before ≤ 1 }
    ensures { result ≡ code_level before bit }
{
    if bit == 1 { before } else { 1 - before }
}

// Makes all cycles of a part one level. The slice's own `fill` stores the last one apart, which costs more for each cell.
fn fill(part: &mut [u8], level: u8)
    ensures { part.new ≡ replicate (length part.old) level }
{
    for cycle in part {
        *cycle = level;
    }
}

// The cycles of a cell: a of its mark, and b of its code.
#[derive(Clone, Copy)]
pub struct Cell {
    pub a: WriterCycles,
    pub b: WriterCycles,
}

impl Cell {
    // Tells whether both are in range.
    fn fit(self) -> bool
        ensures { result ≡ (subcell self.a.0 && subcell self.b.0) }
    {
        measure::between(SUBCELL_LEAST, SUBCELL_MOST, self.a.0)
            & measure::between(SUBCELL_LEAST, SUBCELL_MOST, self.b.0)
    }

    // Gives the cycles of a message's wave, or a row's: its lead, and a cell for each of n bits.
    fn cycles(self, lead: usize, n: usize) -> usize
        requires { (self.a.0 ≤ 255) × (self.b.0 ≤ 255) × (lead ≤ 65535) × (n ≤ 1024) }
        ensures { (result ≡ lead + n * (self.a.0 + self.b.0)) × (result ≤ 587775) }
    {
        let cell = self.a.0 + self.b.0;
        lead + n * cell
    }

    // Writes a cell at a place and gives the level that it leaves on the line.
    // Here and below a place is added up: to cut off a part of the output takes the same sum, as the part's length.
    fn write_one(self, before: u8, bit: u8, out: &mut [u8], at: usize) -> u8
        requires { (before ≤ 1) × (at + self.a.0 + self.b.0 ≤ length out.old) }
        ensures { (result ≡ code_level before bit)
            × (sets out.old at (replicate self.a.0 (opposite before) ++ replicate self.b.0 (code_level before bit))
            ≡ out.new) }
    {
        let level = code_level(before, bit);
        let code = at + self.a.0;
        let end = code + self.b.0;
        fill(&mut out[at..code], 1 - before);
        fill(&mut out[code..end], level);
        level
    }

    // Writes the cells of bits at a place, from high, and gives the place after them.
    fn write(self, bits: &[u8], out: &mut [u8], at: usize) -> usize
        requires { at + length bits.now * (self.a.0 + self.b.0) ≤ length out.old }
        ensures { (result ≡ at + length bits.now * (self.a.0 + self.b.0))
            × (sets out.old at (cells self.a.0 self.b.0 1 bits.now) ≡ out.new) }
    {
        let mut before = HIGH;
        let mut place = at;
        for bit in bits {
            before = self.write_one(before, *bit, out, place);
            place = place + self.a.0 + self.b.0;
        }
        place
    }

    // Writes the wave of a message, or a row, at a place and gives the place after it.
    fn write_wave(self, lead: usize, bits: &[u8], out: &mut [u8], at: usize) -> usize
        requires { at + lead + length bits.now * (self.a.0 + self.b.0) ≤ length out.old }
        ensures { (result ≡ at + lead + length bits.now * (self.a.0 + self.b.0))
            × (sets out.old at (wave self.a.0 self.b.0 lead bits.now) ≡ out.new) }
    {
        let first = at + lead;
        fill(&mut out[at..first], HIGH);
        self.write(bits, out, first)
    }
}

// Refuses with 2 a list with an entry that is no bit, at the place of the first.
fn check_bits(bits: &[u8]) -> Result<(), Refusal>
    ensures { entries_answer 1 bits.now ≡ result }
{
    measure::check_entries(bits, HIGH)
}

// Tells whether a, b and the lead pad of a message are in range.
fn in_range(cell: Cell, p1: usize) -> bool
    ensures { result ≡ message_in_range cell.a.0 cell.b.0 p1 }
{
    cell.fit() & (p1 <= PAD_MOST)
}

// Sends a message. Gives the number of cycles of its wave.
// Refuses with 1 (a, b or the pad), 3 (more than 1,024 bits; up to that number no wave is over its own limit), 2 (the
// place of the first entry that is no bit), 4.
// The output holds the wave at its front and is otherwise untouched; every refusal leaves all of it.
pub fn send(
    cell: Cell,
    p1: WriterCycles,
    bits: &[u8],
    out: &mut [u8],
) -> Result<WriterCycles, Refusal>
    ensures { sent_message cell.a.0 cell.b.0 p1.0 bits.now out.old
        ≡ (sent_says result, out.new) }
{
    let lead = p1.0;
    if !in_range(cell, lead) {
        return Err(Refusal::Setting(0));
    }
    if bits.len() > BITS_MOST {
        return Err(Refusal::Limit);
    }
    let cycles = cell.cycles(lead, bits.len());
    check_bits(bits)?;
    if out.len() < cycles {
        return Err(Refusal::Room);
    }
    let end = cell.write_wave(lead, bits, out, 0);
    Ok(WriterCycles(end))
}

// Tells whether each pad of a list is in range.
pub fn pads_in_range(pads: &[usize]) -> bool
    ensures { result ≡ padded pads.now }
{
    pads.iter().all(|pad| *pad <= PAD_MOST)
}

// Tells whether the lists of a plan fit one another. It divides, since rows times n may be more than a usize holds.
fn lists_fit(n: usize, leads: &[usize], bits: &[u8]) -> bool
    requires { 0 < n }
    ensures { result ≡ fitting n leads.now bits.now }
{
    let rows = bits.len() / n;
    (leads.len() >= 1) & (rows == leads.len()) & (bits.len() == rows * n)
}

// Tells whether a, b, n and all pads of a plan are in range and its lists fit one another.
fn plan_in_range(cell: Cell, n: usize, leads: &[usize], bits: &[u8]) -> bool
    ensures { result ≡ plan_in_range cell.a.0 cell.b.0 n leads.now bits.now }
{
    cell.fit()
        && measure::between(BITS_LEAST, BITS_MOST, n)
        && lists_fit(n, leads, bits)
        && pads_in_range(leads)
}

// A plan in range, with its rows as two lists: a lead pad for each, and n bits for each.
#[derive(Clone, Copy)]
struct Plan<'a> {
    cell: Cell,
    n: usize,
    leads: &'a [usize],
    bits: &'a [u8],
    ghost in_range: { plan_in_range cell.a.0 cell.b.0 n leads.now bits.now ≡ true },
}

impl Plan<'_> {
    // Gives the number of cycles of the plan's wave.
    fn cycles(self) -> usize
        requires { length self.leads.now ≤ 1024 }
        ensures { length
            (plan_wave self.entry.cell.a.0 self.entry.cell.b.0
            (rows_of self.entry.n self.entry.leads.now self.entry.bits.now)) ≡ result }
    {
        let mut cycles = 0;
        for lead in self.leads {
            cycles += self.cell.cycles(*lead, self.n);
        }
        cycles
    }

    // Writes the waves of the rows one after another.
    fn write(self, out: &mut [u8])
        requires { length (plan_wave self.cell.a.0 self.cell.b.0 (rows_of self.n self.leads.now self.bits.now))
            ≤ length out.old }
        ensures { sets out.old 0
            (plan_wave self.entry.cell.a.0 self.entry.cell.b.0
            (rows_of self.entry.n self.entry.leads.now self.entry.bits.now)) ≡ out.new }
    {
        let mut at = 0;
        for (lead, row) in self.leads.iter().zip(self.bits.chunks_exact(self.n)) {
            at = self.cell.write_wave(*lead, row, out, at);
        }
    }
}

// Sends a plan: for each row a lead pad, and n bits of the one list of bits. Gives the number of cycles of the plan's
// wave.
// Refuses with 1 (a, b, n or a pad; no row; lists that do not fit one another), 3 (more than 1,024 rows, or 1,048,576
// cycles), 2 (the place of the first entry that is no bit), 4.
// The output holds the wave at its front and is otherwise untouched; every refusal leaves all of it.
pub fn send_plan(
    cell: Cell,
    n: usize,
    leads: &[usize],
    bits: &[u8],
    out: &mut [u8],
) -> Result<WriterCycles, Refusal>
    ensures { sent_plan cell.a.0 cell.b.0 n leads.now bits.now out.old
        ≡ (sent_says result, out.new) }
{
    if !plan_in_range(cell, n, leads, bits) {
        return Err(Refusal::Setting(0));
    }
    let plan = Plan {
        cell,
        n,
        leads,
        bits,
    };
    if leads.len() > ROWS_MOST {
        return Err(Refusal::Limit);
    }
    let total = plan.cycles();
    if total > ENTRIES_MOST {
        return Err(Refusal::Limit);
    }
    check_bits(bits)?;
    if out.len() < total {
        return Err(Refusal::Room);
    }
    plan.write(out);
    Ok(WriterCycles(total))
}
