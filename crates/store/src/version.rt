//! Versions of the surface.

ghost use Rattle.std.specs.Prelude.{◌≡◌, ◌≤◌, ◌+◌, ◌^◌, true, None, length, slice_get, option_map, IfOk, IfErr};
ghost use Rattle.std.specs.Option.{option_copied};
ghost use Rattle.std.specs.FinMap as map;
ghost use Rattle.ground_num.specs.Head.{IsOrigin};
ghost use Rattle.ground_model.specs.Content.{level_of, points_of};
ghost use Rattle.ground_model.specs.Tri.{tri};
ghost use Rattle.ground_model.specs.Answer.{has_changed as has_changed_since, given_number};
ghost use Rattle.ground_model.specs.History.{content_of, born, IsLegal};
ghost use Rattle.store.specs.Births.{birth_of};
ghost use Rattle.store.specs.Versions.{newest_refusal, with_next, IsMadeBy, IsPlan};
ghost use Rattle.store.specs.Outcomes.{takes_room, IsOutcome};
ghost use Rattle.store.specs.Answers.{Plans};

use crate::outcome::Outcome;
use crate::plan::{Plan, PlanFault};
use crate::state::{Made, State, copied};
use crate::zone::zone_of;
use ground_model::{
    Edit, Entry, Level, Limits, LineId, LineKind, Listed, Mark, Place, Places, Relief, Slope,
};
use ground_num::Head;
use page_vec::{Shared, Steps};
use std::alloc::AllocError;
use std::marker::Model;
use std::sync::ledger::Ledger;

/// The surface after some entries of its journal. It never changes, and threads may read it side by
/// side: an edit makes another one, which shares what it leaves.
#[derive(Drop)]
pub struct Version {
    pub(crate) state: Shared<State>,
}

impl Model for Version {
    ghost use Rattle.store.specs.Versions.{VersionView};

    ghost Value = { VersionView };

    ghost view = { λ v. v.state };
}

impl Version {
    /// How many entries the journal has.
    pub fn front(&self) -> u32
        ensures value { result ≡ length self.now.journal.entries }
        ensures legal { IsLegal self.now.journal.limits self.now.journal.entries }
        ensures short { result ≤ 2 ^ 24 }
    {
        self.state.get().front()
    }

    /// The name, the unit and the origin of the surface.
    pub fn head(&self) -> &Head
        ensures value { result.now ≡ self.now.journal.head }
        ensures origin { IsOrigin result.now.origin }
    {
        self.state.get().head()
    }

    /// How large the surface may grow.
    pub fn limits(&self) -> &Limits
        ensures { result.now ≡ self.now.journal.limits }
    {
        self.state.get().limits()
    }

    /// The entry at index `k`, counted from 0. None exactly from the front on.
    pub fn entry(&self, k: u32) -> Option<&Entry>
        ensures { option_copied result ≡ slice_get self.now.journal.entries k }
    {
        self.state.get().entry(k)
    }

    /// The level of a point. None exactly where there is no such point.
    pub fn level_of(&self, place: Place) -> Option<Level>
        ensures { result ≡ level_of (content_of self.now.journal.entries) place }
    {
        self.state.get().surface().level_of(place)
    }

    /// A line. None exactly where it isn't live.
    pub fn line(&self, id: LineId) -> Option<(LineKind, &Places)>
        ensures { option_map (λ l. record { kind = l.0; places = l.1.now }) result ≡ map.get (content_of self.now.journal.entries).table.lines id.0 }
    {
        self.state.get().surface().lines().get(id)
    }

    /// How many points the surface has.
    pub fn points(&self) -> u32
        ensures { result ≡ map.len (content_of self.now.journal.entries).points }
    {
        self.state.get().surface().points() as u32
    }

    /// The places of the points, in place order. It takes memory for them.
    pub fn places(&self) -> Result<Vec<Place>, AllocError>
        ensures { IfOk result (λ places. places.items ≡ points_of (content_of self.now.journal.entries)) }
    {
        let state = self.state.get();
        state.surface().places(state.alloc())
    }

    /// How many facets the surface has, kept or not.
    pub fn facets(&self) -> u32
        ensures { result ≡ length (tri (content_of self.now.journal.entries)) }
    {
        self.state.get().surface().facets().len() as u32
    }

    /// How many lines are live.
    pub fn lines(&self) -> u32
        ensures { result ≡ map.len (content_of self.now.journal.entries).table.lines }
    {
        self.state.get().surface().lines().len()
    }

    /// The front at which a mark was born: a facet, or a point with its level. None exactly where it
    /// isn't there. It is kept, so the cost is that of finding the mark.
    pub fn born(&self, mark: &Mark) -> Option<u32>
        ensures { result ≡ birth_of (content_of self.now.journal.entries) (born self.now.journal.entries) mark.now }
    {
        self.state.get().born(mark)
    }

    /// Another handle on this version. It costs one reference, whatever the surface's size.
    pub fn share(&self) -> Result<Version, AllocError>
        ensures journal { IfOk result (λ v. v.journal ≡ self.now.journal) }
        ensures table { IfOk result (λ v. v.table ≡ self.now.table) }
    {
        Ok(Version {
            state: self.state.clone()?,
        })
    }

    /// Whether a mark has changed since the base: it is gone, or was born after.
    pub(crate) fn has_changed(&self, mark: &Mark, base: u32) -> bool
        ensures { result ≡ has_changed_since self.now.journal.entries base mark.now }
    {
        match self.born(mark) {
            Some(birth) => base < birth,
            None => true,
        }
    }

    /// The number that an edit gives to a new line on this version.
    pub(crate) fn new_line(&self, edit: &Edit) -> Option<LineId>
        ensures { result ≡ given_number (content_of self.now.journal.entries) edit.now }
    {
        match edit {
            Edit::AddLine(_, _) => Some(self.state.get().surface().lines().next()),
            Edit::AddPoint(_, _)
            | Edit::RemovePoint(_)
            | Edit::SetLevel(_, _)
            | Edit::RemoveLine(_) => None,
        }
    }

    // The parts of a plan of this edit, which makes this surface.
    fn parts_of(
        &self,
        edit: &Edit,
        made: Made,
    ) -> Result<(Version, Shared<Made>, Listed<Mark>), AllocError>
        requires lawful { newest_refusal self.now.journal edit.now ≡ None }
        requires made { IsMadeBy self.now.journal edit.now made }
        ensures journal { IfOk result (λ parts. parts.0.journal ≡ self.now.journal) }
        ensures plan { IfOk result (λ parts. IsPlan self.now.journal edit.now parts.1 parts.2) }
    {
        let state = self.state.get();
        let marks = zone_of(state.alloc(), edit, state.surface(), &made.surface)?;
        let version = self.share()?;
        let made = self.shared(made)?;
        Ok((version, made, Listed::from_vec(marks)))
    }

    /// What an edit comes to on this version.
    pub(crate) fn outcome(&self, edit: &Edit) -> Result<Outcome, AllocError>
        ensures outcome { IfOk result (IsOutcome self.now.journal edit.now) }
        ensures memory { IfErr result (λ _. takes_room self.now.journal.limits self.now.journal.entries edit.now ≡ true) }
    {
        self.state.get().outcome(edit)
    }

    /// A surface that an edit made, to be shared.
    pub(crate) fn shared(&self, made: Made) -> Result<Shared<Made>, AllocError>
        ensures { IfOk result (λ shared. shared ≡ made) }
    {
        Ok(Shared::new(self.state.get().alloc(), made)?)
    }

    /// A copy of an edit.
    pub(crate) fn copied(&self, edit: &Edit) -> Result<Edit, AllocError>
        ensures { IfOk result (λ copy. copy ≡ edit.now) }
    {
        copied(self.state.get().alloc(), edit)
    }

    /// The version with the author's next entry, which makes this edit and this surface.
    pub(crate) fn with_entry<L: Ledger>(
        &self,
        author: u16,
        edit: Edit,
        made: Shared<Made>,
        steps: &mut Steps<L>,
    ) -> Result<Version, AllocError>
        requires lawful { newest_refusal self.now.journal edit ≡ None }
        requires made { IsMadeBy self.now.journal edit made }
        ensures version { IfOk result (λ version. version.journal ≡ with_next author self.now.journal edit) }
        ensures cost { steps.new ≤ steps.old + 1 }
    {
        let state = self.state.get();
        let next = state.with_entry(author, edit, made, steps)?;
        Ok(Version {
            state: Shared::new(state.alloc(), next)?,
        })
    }

    /// Plans an edit on this version, without a lock: makes its surface, and finds the marks that it
    /// rests on. Refused is the first cause on this version. Its cost is that of the slow
    /// triangulation, but for a level that is set.
    pub fn plan(&self, edit: Edit) -> Result<Plan, PlanFault>
        ensures { Plans self.now.journal edit result }
    {
        match self.outcome(&edit) {
            Ok(Outcome::Lawful(made)) => match self.parts_of(&edit, made) {
                Ok((version, made, marks)) => Ok(Plan {
                    version,
                    edit,
                    made,
                    marks,
                }),
                Err(AllocError) => Err(PlanFault::Memory(edit)),
            },
            Ok(Outcome::Refused(cause)) => Err(PlanFault::Refused(edit, cause)),
            Err(AllocError) => Err(PlanFault::Memory(edit)),
        }
    }
}

impl Relief for Version {
    ghost use Rattle.std.specs.Prelude.{ℕ};
    ghost use Rattle.ground_model.specs.History.{content_of};
    ghost use Rattle.ground_model.specs.Slope.{relief};
    ghost use Rattle.measures.specs.SlopeList.{level_in};

    ghost slopes = { λ v. relief (content_of v.journal.entries) };

    ghost table = { λ v. v.table };

    ghost corner_level = { λ v. level_in (relief (content_of v.journal.entries)) };

    fn slots(&self) -> u32 {
        self.state.get().slopes().slots()
    }

    fn slope(&self, slot: u32) -> Option<Slope> {
        self.state.get().slopes().slope(slot)
    }

    fn holding(&self, place: Place) -> Option<Slope> {
        self.state.get().slopes().holding(place)
    }
}
