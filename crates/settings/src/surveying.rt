// The survey of a region: it counts the boards that the judge accepts, and finds for M1, M2 and M3 the board that is
// worst off.
ghost use Rattle.std.specs.Prelude.{◌≡◌, ◌+◌, ◌^◌, ◌<◌};
ghost use Rattle.settings.specs.Survey.{region, boards, judged_boards, surveyed, surveyed_says};
ghost use Rattle.settings.specs.Sifting.{smaller, with_board, margins_at};

use crate::checked::Settings;
use crate::{Clocks, Margins, Pair};
use measure::{ReadCycles, Refusal, TimeUnits, WriterCycles};
use std::marker::Model;

// The most boards of a region.
const BOARDS_MOST: usize = 4096;

// A margin in time units, and the first board that has it, counted from 0.
#[derive(Clone, Copy)]
pub struct Smallest {
    pub margin: i64,
    pub place: usize,
}

impl Smallest {
    // Stands for the smallest of no margins, so that the loop asks nothing of a first board: no board's margin is above
    // the greatest that the type holds.
    const OF_NONE: Smallest = Smallest {
        margin: i64::MAX,
        place: 0,
    };

    // Gives the smaller of this margin and that of the board at a place; of equals this one. It is no `min`, since a
    // derived order would compare the places too.
    fn or(self, margin: i64, place: usize) -> Smallest
        ensures { result ≡ smaller self margin place }
    {
        let before = self.margin;
        if margin < before {
            return Smallest { margin, place };
        }
        self
    }
}

// What is told of a region: how many boards are accepted, and the smallest of each margin.
#[derive(Clone, Copy)]
pub struct Figures {
    pub accepted: usize,
    pub m1: Smallest,
    pub m2: Smallest,
    pub m3: Smallest,
}

impl Figures {
    // Stands for the figures of no boards.
    const OF_NONE: Figures = Figures {
        accepted: 0,
        m1: Smallest::OF_NONE,
        m2: Smallest::OF_NONE,
        m3: Smallest::OF_NONE,
    };

    // Gives what is told with the board at a place, by its margins.
    fn with(self, board: Margins, place: usize) -> Figures
        requires { self.accepted + 1 < 2 ^ 64 }
        ensures { result ≡ with_board self board place }
    {
        Figures {
            accepted: self.accepted + usize::from(board.accepted()),
            m1: self.m1.or(board.m1, place),
            m2: self.m2.or(board.m2, place),
            m3: self.m3.or(board.m3, place),
        }
    }
}

// The settings of a region's boards: six lists that have as many entries each.
#[derive(Drop)]
struct Boards<'a> {
    a: &'a [usize],
    b: &'a [usize],
    g: &'a [usize],
    k: &'a [usize],
    w: &'a [usize],
    r: &'a [usize],
}

impl<'a> Model for Boards<'a> {
    ghost use Rattle.std.specs.Prelude.{◌≡◌, true};
    ghost use Rattle.settings.specs.Survey.{Region, region, lists_fit};

    ghost Value = { Region };

    ghost view = { λ s. region s.a.now s.b.now s.g.now s.k.now s.w.now s.r.now };

    ghost invariant = { λ s. lists_fit (region s.a.now s.b.now s.g.now s.k.now s.w.now s.r.now) ≡ true };
}

impl<'a> Boards<'a> {
    // Gives how many there are.
    fn count(&self) -> usize
        ensures { result ≡ boards self.now }
    {
        self.a.len()
    }

    // Gives M1, M2 and M3 of the board at a place, if its settings are in range.
    fn margins(&self, i: usize) -> Option<Margins>
        requires { i < boards self.now }
        ensures { result ≡ margins_at self.now i }
    {
        let Boards { a, b, g, k, w, r } = self;
        let pair = Pair {
            a: WriterCycles(a[i]),
            b: WriterCycles(b[i]),
            g: WriterCycles(g[i]),
        };
        let clocks = Clocks::steady(TimeUnits(w[i]), TimeUnits(r[i]));
        let board = Settings::checked(pair, ReadCycles(k[i]), clocks).ok()?;
        Some(board.margins())
    }

    // Surveys the boards, in one pass that stops at the first with a setting out of range.
    fn survey(&self) -> Result<Option<Figures>, Refusal>
        ensures { judged_boards self.now ≡ surveyed_says result }
    {
        let count = self.count();
        let mut figures = Figures::OF_NONE;
        for i in 0..count {
            let margins = self.margins(i).ok_or(Refusal::Setting(i))?;
            figures = figures.with(margins, i);
        }
        if count > BOARDS_MOST {
            return Err(Refusal::Limit);
        }
        if count == 0 {
            return Ok(None);
        }
        Ok(Some(figures))
    }
}

// The survey of a region of boards with steady clocks, each with its a, b, g, k, w and r in six lists. Gives how many
// boards the judge accepts, and the smallest of each of M1, M2 and M3 with the first place that has it; of no boards it
// gives none.
// Refuses with 1 lists of unequal length, place 0; with 1 the first board that has a setting out of range, at its
// place, also after the 4,096th; then with 3 more than 4,096 boards.
// It takes the lists one by one, as C lends them.
#[tactic(auto, unfolding(crate::specs::Survey::surveyed))]
pub fn survey(
    a: &[usize],
    b: &[usize],
    g: &[usize],
    k: &[usize],
    w: &[usize],
    r: &[usize],
) -> Result<Option<Figures>, Refusal>
    ensures { surveyed (region a.now b.now g.now k.now
        w.now r.now) ≡ surveyed_says result }
{
    // Five plain tests: a loop over a list of the six would need that list, and be no shorter.
    let fit = (b.len() == a.len())
        & (g.len() == a.len())
        & (k.len() == a.len())
        & (w.len() == a.len())
        & (r.len() == a.len());
    if !fit {
        return Err(Refusal::Setting(0));
    }
    let boards = Boards { a, b, g, k, w, r };
    boards.survey()
}
