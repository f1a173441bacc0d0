//! What a version is made of.

ghost use Rattle.std.specs.Prelude.{◌≡◌, ◌<◌, ◌≤◌, ◌+◌, ◌^◌, [], None, Some, length, slice_get, map as each, IfOk};
ghost use Rattle.std.specs.FinMap as map;
ghost use Rattle.std.specs.Option.{option_copied};
ghost use Rattle.ground_num.specs.Head.{IsOrigin};
ghost use Rattle.ground_model.specs.History.{content_of, born, IsLegal};
ghost use Rattle.ground_model.specs.Slope.{relief};
ghost use Rattle.landxml_write.specs.Exports.{IsExport};
ghost use Rattle.store.specs.Births.{birth_of};
ghost use Rattle.store.specs.Shown.{shown_by};
ghost use Rattle.store.specs.Versions.{newest_refusal, with_next, IsMadeBy};

use crate::authors::Authors;
use crate::births::Births;
use crate::surface::Surface;
use ground_model::{Edit, Entry, Limits, Mark, Places};
use ground_num::Head;
use measures::SlopeList;
use page_vec::{PageVec, Shared, Steps};
use std::alloc::{AllocError, Global};
use std::marker::{Brand, Model};
use std::sync::ledger::{Blank, Ledger};

/// The surface that edits made, and the fronts at which its marks were born.
#[derive(Drop)]
pub(crate) struct Made {
    pub(crate) surface: Surface,
    pub(crate) births: Births,
}

/// A journal with the surface that it makes. The head, the entries and the surface are shared with
/// the versions before and after.
#[derive(Drop)]
pub(crate) struct State {
    pub(crate) head: Shared<Head>,
    pub(crate) limits: Limits,
    pub(crate) log: PageVec<Shared<Entry>>,
    pub(crate) authors: Authors,
    pub(crate) made: Shared<Made>,
    pub(crate) alloc: Global,
}

impl Model for State {
    ghost use Rattle.std.specs.Prelude.{map, Some};
    ghost use Rattle.turn_lock.specs.declared.journal.Journal.{Journal};
    ghost use Rattle.ground_model.specs.Slope.{relief};
    ghost use Rattle.store.specs.Versions.{VersionView, IsVersion};

    ghost Value = { VersionView };

    ghost view = { λ s. record { journal = record { head = s.head; limits = s.limits; entries = s.log }; table = map Some (relief s.made.surface) } };

    ghost invariant = { λ s. IsVersion (record { head = s.head; limits = s.limits; entries = s.log }) s.authors.counts.entries s.made };
}

// The entry at this index, counted by a counter of its own.
fn entry_on<L: Ledger>(log: &PageVec<Shared<Entry>>, k: u32, blank: Blank) -> Option<&Entry>
    requires name { blank.name ≡ L.name }
    requires parts { blank.parts ≡ L.parts }
    requires writable { 0 < L.parts }
    ensures { option_copied result ≡ slice_get log.now k }
{
    match log.get(k, &mut Steps::<L>::new(blank)) {
        Some(entry) => Some(entry.get()),
        None => None,
    }
}

impl State {
    /// How many entries the journal has.
    pub(crate) fn front(&self) -> u32
        ensures value { result ≡ length self.now.journal.entries }
        ensures legal { IsLegal self.now.journal.limits self.now.journal.entries }
        ensures short { result ≤ 2 ^ 24 }
    {
        self.log.len()
    }

    /// The head.
    pub(crate) fn head(&self) -> &Head
        ensures value { result.now ≡ self.now.journal.head }
        ensures origin { IsOrigin result.now.origin }
        ensures lawful { IsExport (shown_by self.now.journal) }
    {
        self.head.get()
    }

    /// The limits.
    pub(crate) fn limits(&self) -> &Limits
        ensures { result.now ≡ self.now.journal.limits }
    {
        &self.limits
    }

    /// The entry at index `k`, counted from 0.
    pub(crate) fn entry(&self, k: u32) -> Option<&Entry>
        ensures { option_copied result ≡ slice_get self.now.journal.entries k }
    {
        entry_on::<Brand>(&self.log, k, Blank::new(1))
    }

    /// The surface.
    pub(crate) fn surface(&self) -> &Surface
        ensures content { result.now ≡ content_of self.now.journal.entries }
        ensures few_points { map.len (content_of self.now.journal.entries).points ≤ 2 ^ 24 }
        ensures lawful { IsExport (shown_by self.now.journal) }
    {
        &self.made.get().surface
    }

    /// The relief of the surface, whose slopes lie in the table.
    pub(crate) fn slopes(&self) -> &SlopeList
        ensures value { result.now ≡ relief (content_of self.now.journal.entries) }
        ensures table { self.now.table ≡ each Some result.now }
    {
        self.made.get().surface.slopes()
    }

    /// Where memory is taken from.
    pub(crate) fn alloc(&self) -> Global {
        self.alloc
    }

    /// The front at which a mark was born, None where it isn't there.
    pub(crate) fn born(&self, mark: &Mark) -> Option<u32>
        ensures { result ≡ birth_of (content_of self.now.journal.entries) (born self.now.journal.entries) mark.now }
    {
        let made = self.made.get();
        made.births.of(&made.surface, mark)
    }

    /// The state with the author's next entry, which makes this edit and this surface.
    pub(crate) fn with_entry<L: Ledger>(
        &self,
        author: u16,
        edit: Edit,
        made: Shared<Made>,
        steps: &mut Steps<L>,
    ) -> Result<State, AllocError>
        requires lawful { newest_refusal self.now.journal edit ≡ None }
        requires made { IsMadeBy self.now.journal edit made }
        ensures state { IfOk result (λ state. state.journal ≡ with_next author self.now.journal edit) }
        ensures cost { steps.new ≤ steps.old + 1 }
    {
        let number = self.authors.entries(author) + 1;
        let entry = Entry {
            author,
            number,
            edit,
        };
        let mut log = self.log.share()?;
        log.push(Shared::new(self.alloc, entry)?, steps)?;
        Ok(State {
            head: self.head.clone()?,
            limits: self.limits,
            log,
            authors: self.authors.with_entry(author, number)?,
            made,
            alloc: self.alloc,
        })
    }
}

/// A copy of an edit, which takes memory for the places of a line alone.
pub fn copied(alloc: Global, edit: &Edit) -> Result<Edit, AllocError>
    ensures { IfOk result (λ copy. copy ≡ edit.now) }
{
    match edit {
        Edit::AddPoint(place, level) => Ok(Edit::AddPoint(*place, *level)),
        Edit::RemovePoint(place) => Ok(Edit::RemovePoint(*place)),
        Edit::SetLevel(place, level) => Ok(Edit::SetLevel(*place, *level)),
        Edit::AddLine(kind, places) => Ok(Edit::AddLine(
            *kind,
            Places::from_slice(alloc, places.as_slice())?,
        )),
        Edit::RemoveLine(id) => Ok(Edit::RemoveLine(*id)),
    }
}

/// The state of an empty journal.
pub(crate) fn empty_state(alloc: Global, head: Head, limits: Limits) -> Result<State, AllocError>
    requires { IsOrigin head.origin }
    ensures { IfOk result (λ state. state.journal ≡ record { head = head; limits = limits; entries = [] }) }
{
    let made = Made {
        surface: Surface::empty(alloc)?,
        births: Births::empty(alloc),
    };
    Ok(State {
        head: Shared::new(alloc, head)?,
        limits,
        log: PageVec::empty(alloc),
        authors: Authors::empty(alloc),
        made: Shared::new(alloc, made)?,
        alloc,
    })
}
