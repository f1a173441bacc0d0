//! The table of live lines.

ghost use Rattle.std.specs.Prelude.{◌≡◌, ◌+◌, ◌-◌, ◌^◌, ◌<◌, ◌≤◌, length, option_copied, option_map, IfOk, IfErr, IsOk, None, OnOk, OnErr};
ghost use Rattle.std.specs.FinMap as finmap;
ghost use Rattle.ground_model.specs.Table.{no_lines, numbered, with_line, without_line, places_together};
ghost use Rattle.line_table.specs.ByPlace.{numbers_with};

use crate::by_place;
use crate::line::Line;
use crate::live::LiveLines;
use crate::numbers::{LinesAt, Numbers};
use ground_model::{LineId, LineKind, Place, Places};
use page_index::PageIndex;
use page_vec::Shared;
use std::alloc::{AllocError, Global};
use std::marker::Model;

/// The live lines by their numbers, and the number that the next one gets: from 1 in the order of
/// the additions, and never again.
#[derive(Drop)]
pub struct Lines {
    pub(crate) lines: PageIndex<Shared<Line>>,
    // At each place the numbers of the lines that have it.
    by_place: PageIndex<Numbers>,
    next: u32,
    places: u64,
    pub(crate) alloc: Global,
}

impl Model for Lines {
    ghost use Rattle.std.specs.FinMap as finmap;
    ghost use Rattle.ground_model.specs.Table.{Table};
    ghost use Rattle.line_table.specs.Sound.{IsIndexed};
    ghost use Rattle.ground_model.specs.Codes.{coded_table};

    ghost Value = { Table };

    ghost coded = { coded_table };

    ghost view = { λ t. record { lines = finmap.from_sorted t.lines; next = t.next } };

    ghost invariant = { λ t. IsIndexed t.lines t.by_place t.next t.places };
}

impl Lines {
    /// The table of no line. It takes no memory.
    pub fn empty(alloc: Global) -> Lines
        ensures { result ≡ no_lines }
    {
        Lines {
            lines: PageIndex::empty(alloc),
            by_place: PageIndex::empty(alloc),
            next: 1,
            places: 0,
            alloc,
        }
    }

    /// How many lines are live.
    pub fn len(&self) -> u32
        ensures len { result ≡ finmap.len self.now.lines }
        ensures few { result ≤ 65535 }
    {
        self.lines.len()
    }

    /// The number that the next line gets.
    pub fn next(&self) -> LineId
        ensures { result.0 ≡ self.now.next }
    {
        LineId(self.next)
    }

    /// How many places all live lines have together. It is kept, so a call costs nothing.
    pub fn places(&self) -> u64
        ensures value { result ≡ places_together self.now }
        ensures small { result < 2 ^ 48 }
    {
        self.places
    }

    /// Adds a line under the next number, on a copy of the places. Out of memory the table is as
    /// before, and the places come back; more than 2^24 places are out of memory. Its cost is that of
    /// the copy, of a search by number and one for each place, with the pages on the way.
    pub fn add(&mut self, kind: LineKind, places: Places) -> Result<LineId, (AllocError, Places)>
        requires few { finmap.len self.old.lines < 65535 }
        requires numbers { self.old.next < 2 ^ 32 - 1 }
        requires short { length places < 2 ^ 32 }
        ensures id { IfOk result (λ id. id.0 ≡ self.old.next) }
        ensures ok { OnOk result (self.new ≡ with_line self.old (record { kind = kind; places = places })) }
        ensures err { OnErr result (self.new ≡ self.old) }
        ensures back { IfErr result (λ e. e.1 ≡ places) }
    {
        let Ok(line) = shared_line(self.alloc, kind, &places) else {
            return Err((AllocError, places));
        };
        let id = self.next;
        let Ok(more) = by_place::with_line(&self.by_place, self.alloc, places.as_slice(), id) else {
            return Err((AllocError, places));
        };
        match self.lines.set(id as u64, line) {
            Ok(()) => {
                self.by_place = more;
                self.next = id + 1;
                self.places += places.len() as u64;
                Ok(LineId(id))
            }
            Err(_) => Err((AllocError, places)),
        }
    }

    /// Takes a line out. None exactly for a number that is not live, which takes no memory and never
    /// fails. The places are a copy, since other versions may hold the line; out of memory the table
    /// is as before. Its cost is that of the copy, of a search by number and one for each place, with
    /// the pages on the way.
    pub fn take(&mut self, id: LineId) -> Result<Option<(LineKind, Places)>, AllocError>
        ensures line { IfOk result (λ found. option_map (λ l. record { kind = l.0; places = l.1 }) found ≡ finmap.get self.old.lines id.0) }
        ensures ok { OnOk result (self.new ≡ without_line self.old id.0) }
        ensures err { OnErr result (self.new ≡ self.old) }
        ensures absent { finmap.get self.old.lines id.0 ≡ None → IsOk result }
    {
        let Some(line) = self.lines.get(id.0 as u64) else {
            return Ok(None);
        };
        let kind = line.get().kind();
        let places = Places::from_slice(self.alloc, line.get().places().as_slice())?;
        let rest = by_place::without_line(&self.by_place, self.alloc, places.as_slice(), id.0)?;
        self.lines.remove(id.0 as u64)?;
        self.by_place = rest;
        self.places -= places.len() as u64;
        Ok(Some((kind, places)))
    }

    /// A line. None exactly for a number that is not live. Its cost is a search by number.
    pub fn get(&self, id: LineId) -> Option<(LineKind, &Places)>
        ensures { option_map (λ l. record { kind = l.0; places = l.1.now }) result ≡ finmap.get self.now.lines id.0 }
    {
        match self.lines.get(id.0 as u64) {
            Some(line) => Some((line.get().kind(), line.get().places())),
            None => None,
        }
    }

    /// A line as it is stored. Its cost is a search by number.
    pub(crate) fn line(&self, id: LineId) -> Option<&Line>
        ensures { option_copied result ≡ finmap.get self.now.lines id.0 }
    {
        match self.lines.get(id.0 as u64) {
            Some(line) => Some(line.get()),
            None => None,
        }
    }

    /// The numbers of the lines that have the place, in order. It takes no memory, and costs a search
    /// by place.
    pub fn at(&self, place: Place) -> LinesAt<'_>
        ensures { result ≡ numbers_with place (numbered self.now) }
    {
        by_place::lines_at(&self.by_place, place)
    }

    /// A table that equals this one and shares its lines. It costs two references, whatever the
    /// number of lines.
    pub fn share(&self) -> Result<Lines, AllocError>
        ensures { IfOk result (λ t. t ≡ self.now) }
    {
        Ok(Lines {
            lines: self.lines.share()?,
            by_place: self.by_place.share()?,
            next: self.next,
            places: self.places,
            alloc: self.alloc,
        })
    }

    /// The live lines with their numbers, in order, from either end. It takes no memory.
    pub fn iter(&self) -> LiveLines<'_>
        ensures { result ≡ finmap.entries self.now.lines }
    {
        LiveLines::new(&self.lines)
    }
}

// A line on a copy of the places.
fn shared_line(alloc: Global, kind: LineKind, places: &Places) -> Result<Shared<Line>, AllocError>
    ensures { IfOk result (λ line. line ≡ record { kind = kind; places = places.now }) }
{
    let copy = Places::from_slice(alloc, places.as_slice())?;
    Ok(Shared::new(alloc, Line::new(kind, copy))?)
}
