//! The live lines, one after the other.

ghost use Rattle.std.specs.Prelude.{◌≡◌, ◌<◌, ◌^◌, drop, length};
ghost use Rattle.std.specs.Iterator.{YieldsFirstBy, YieldsLastBy, item_count};
ghost use Rattle.page_index.specs.Parts.{IsFront};
ghost use Rattle.line_table.specs.Sound.{AreNumbers, IsAtHand};

use crate::line::Line;
use ground_model::LineId;
use page_index::PageIndex;
use page_vec::Shared;
use std::marker::Model;

/// The live lines that are left with their numbers, in order, from either end. From the front a page
/// of lines costs a search by rank and one by number, and a step along it costs nothing that grows;
/// from the back each step costs a search by rank.
#[derive(Drop)]
pub struct LiveLines<'a> {
    lines: &'a PageIndex<Shared<Line>>,
    // Lines on one page, from the one of rank `front` on.
    run: &'a [(u64, Shared<Line>)],
    // The ranks of those that are left: from `front` on, below `back`.
    front: u32,
    back: u32,
}

impl<'a> Model for LiveLines<'a> {
    ghost use Rattle.std.specs.Prelude.{ℕ, List, ◌-◌, drop, take};
    ghost use Rattle.std.specs.Coded.{coded_list, coded×, coded_ℕ};
    ghost use Rattle.ground_model.specs.Line.{Line as Seen};
    ghost use Rattle.ground_model.specs.Codes.{coded_line};
    ghost use Rattle.line_table.specs.Sound.{IsWalk};

    ghost Value = { List (ℕ × Seen) };

    ghost coded = { coded_list (coded× coded_ℕ coded_line) };

    ghost view = { λ s. take (s.back - s.front) (drop s.front s.lines.now) };

    ghost invariant = { λ s. IsWalk s.lines.now s.run.now s.front s.back };
}

impl<'a> LiveLines<'a> {
    /// All lines of an index by their numbers.
    pub(crate) fn new(lines: &'a PageIndex<Shared<Line>>) -> LiveLines<'a>
        requires { AreNumbers lines.now }
        ensures { result ≡ lines.entry.now }
    {
        LiveLines {
            lines,
            run: &[],
            front: 0,
            back: lines.len(),
        }
    }
}

// Lines on one page, from a rank on: those at hand, or else those that are found there.
fn run_from<'a>(
    lines: &'a PageIndex<Shared<Line>>,
    run: &'a [(u64, Shared<Line>)],
    front: u32,
) -> &'a [(u64, Shared<Line>)]
    requires { IsAtHand lines.now run.now front }
    ensures { IsFront result.now (drop front lines.now) }
{
    if run.is_empty() {
        run_at(lines, front)
    } else {
        run
    }
}

fn run_at<'a>(lines: &'a PageIndex<Shared<Line>>, front: u32) -> &'a [(u64, Shared<Line>)]
    ensures { IsFront result.now (drop front lines.now) }
{
    // Only the proof reads it: the numbers are in order.
    let _count = lines.len();
    match lines.at(front) {
        Some((from, _)) => lines.run(*from),
        None => &[],
    }
}

impl<'a> Iterator for LiveLines<'a> {
    type Item = (LineId, &'a Line);

    ghost next_gives = { YieldsFirstBy (λ item. (item.0.0, item.1.now)) (λ lines. lines) };

    ghost remaining = { item_count (λ lines. lines) };

    fn next(&mut self) -> Option<(LineId, &'a Line)> {
        if self.front == self.back {
            return None;
        }
        let run = run_from(self.lines, self.run, self.front);
        let Some((entry, rest)) = run.split_first() else {
            return None;
        };
        self.run = rest;
        self.front += 1;
        Some((LineId(entry.0 as u32), entry.1.get()))
    }
}

impl<'a> DoubleEndedIterator for LiveLines<'a> {
    ghost next_back_gives = { YieldsLastBy (λ item. (item.0.0, item.1.now)) (λ lines. lines) };

    fn next_back(&mut self) -> Option<(LineId, &'a Line)> {
        if self.front == self.back {
            return None;
        }
        let Some(entry) = self.lines.at(self.back - 1) else {
            return None;
        };
        self.back -= 1;
        Some((LineId(entry.0 as u32), entry.1.get()))
    }
}
