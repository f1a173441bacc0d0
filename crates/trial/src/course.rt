//! The course of a trial: its store, the version that is kept for plans, and what was counted.

ghost use Rattle.std.specs.Prelude.{◌≡◌, ◌<◌, ◌≤◌, ◌^◌, ◌-◌, ◌%◌, [], pos, length, nat_eq, if◌then◌else◌, OnOk, IfOk};
ghost use Rattle.ground_model.specs.Content.{points_of};
ghost use Rattle.ground_model.specs.History.{content_of};
ghost use Rattle.store.specs.Answers.{answer_at};
ghost use Rattle.turn_lock.specs.Journal.{IsPrefix};
ghost use Rattle.turn_lock.specs.Setting.{setting};
ghost use Rattle.trial.specs.Trials.{IsTrialGround, empty_trial, applied, planned, by_answer, keep as keep_of, point_step, report_on};

use crate::report::Report;
use ground_model::{Edit, Level, Limits, Place};
use ground_num::{Head, Name};
use measures::volume;
use page_vec::Steps;
use std::alloc::{AllocError, Global};
use std::marker::{Brand, Model};
use std::sync::ledger::{Blank, Ledger};
use store::{Applied, Commit, Plan, PlanFault, Store, Version};

/// The author of all edits.
const AUTHOR: u16 = 1;

/// A trial so far.
#[derive(Drop)]
pub(crate) struct Course {
    store: Store,
    kept: Version,
    refused: u32,
    conflicts: u32,
}

impl Model for Course {
    ghost use Rattle.turn_lock.specs.Journal.{IsPrefix};
    ghost use Rattle.trial.specs.Trials.{Trial};

    ghost Value = { Trial };

    ghost view = { λ t. record { journal = t.store.journal; kept = t.kept.journal; refused = t.refused; conflicts = t.conflicts } };

    ghost invariant = { λ t. IsPrefix t.kept.journal t.store.journal };
}

// The surface of a trial: empty, named `trial`, in metres, with the origin 0 0 and the full limits.
fn empty_ground(alloc: Global) -> Result<Store, AllocError>
    ensures { IfOk result (λ store. IsTrialGround (setting store.journal) × (store.journal.entries ≡ [])) }
{
    let Ok(name) = Name::from_bytes(alloc, b"trial") else {
        return Err(AllocError);
    };
    Store::empty(alloc, Head::plain(name), Limits::FULL)
}

impl Course {
    /// An empty surface, of which the version is kept.
    pub(crate) fn empty(alloc: Global) -> Result<Course, AllocError>
        ensures { IfOk result (λ course. IsTrialGround (setting course.journal) × (course ≡ empty_trial (setting course.journal))) }
    {
        let store = empty_ground(alloc)?;
        let kept = store.newest()?;
        Ok(Course {
            store,
            kept,
            refused: 0,
            conflicts: 0,
        })
    }

    // Applies an edit, counted by a counter of its own.
    fn apply_on<L: Ledger>(&mut self, edit: Edit, blank: Blank) -> Result<(), AllocError>
        requires name { blank.name ≡ L.name }
        requires parts { blank.parts ≡ L.parts }
        requires writable { 0 < L.parts }
        requires room { self.old.refused < 2 ^ 32 - 1 }
        ensures { OnOk result (self.new ≡ applied edit self.old) }
    {
        match self.store.apply(AUTHOR, edit, &mut Steps::<L>::new(blank)) {
            Applied::Done(_, _) => Ok(()),
            Applied::Refused(_, _) => {
                self.refused += 1;
                Ok(())
            }
            Applied::Memory(_) => Err(AllocError),
        }
    }

    /// Applies an edit.
    pub(crate) fn apply(&mut self, edit: Edit) -> Result<(), AllocError>
        requires room { self.old.refused < 2 ^ 32 - 1 }
        ensures { OnOk result (self.new ≡ applied edit self.old) }
    {
        self.apply_on::<Brand>(edit, Blank::new(1))
    }

    // Keeps the newest version.
    fn keep(&mut self) -> Result<(), AllocError>
        ensures { OnOk result (self.new ≡ keep_of self.old) }
    {
        self.kept = self.store.newest()?;
        Ok(())
    }

    // Commits a plan, counted by a counter of its own. After a conflict its edit is applied.
    fn commit_on<L: Ledger>(&mut self, plan: Plan, blank: Blank) -> Result<(), AllocError>
        requires name { blank.name ≡ L.name }
        requires parts { blank.parts ≡ L.parts }
        requires writable { 0 < L.parts }
        requires refused { self.old.refused < 2 ^ 32 - 1 }
        requires conflicts { self.old.conflicts < 2 ^ 32 - 1 }
        requires prefix { IsPrefix plan.journal self.old.journal }
        ensures { OnOk result (self.new ≡ by_answer (answer_at self.old.journal (length plan.journal.entries) plan.edit) plan.edit self.old) }
    {
        match self.store.commit(AUTHOR, plan, &mut Steps::<L>::new(blank)) {
            Commit::Done(_, _) => Ok(()),
            Commit::Conflict(_, _, edit) => {
                self.conflicts += 1;
                self.apply(edit)
            }
            Commit::Refused(_, _) => {
                self.refused += 1;
                Ok(())
            }
            Commit::Memory(_) => Err(AllocError),
        }
    }

    // Commits a plan.
    fn commit(&mut self, plan: Plan) -> Result<(), AllocError>
        requires refused { self.old.refused < 2 ^ 32 - 1 }
        requires conflicts { self.old.conflicts < 2 ^ 32 - 1 }
        requires prefix { IsPrefix plan.journal self.old.journal }
        ensures { OnOk result (self.new ≡ by_answer (answer_at self.old.journal (length plan.journal.entries) plan.edit) plan.edit self.old) }
    {
        self.commit_on::<Brand>(plan, Blank::new(1))
    }

    // Plans an edit on the kept version, and commits it where it is lawful there.
    fn plan(&mut self, edit: Edit) -> Result<(), AllocError>
        requires refused { self.old.refused < 2 ^ 32 - 1 }
        requires conflicts { self.old.conflicts < 2 ^ 32 - 1 }
        ensures { OnOk result (self.new ≡ planned edit self.old) }
    {
        match self.kept.plan(edit) {
            Ok(plan) => self.commit(plan),
            Err(PlanFault::Refused(_, _)) => {
                self.refused += 1;
                Ok(())
            }
            Err(PlanFault::Memory(_)) => Err(AllocError),
        }
    }

    // Makes the edit with this number: each eighth is planned.
    fn make(&mut self, k: u32, edit: Edit) -> Result<(), AllocError>
        requires refused { self.old.refused < 2 ^ 32 - 1 }
        requires conflicts { self.old.conflicts < 2 ^ 32 - 1 }
        ensures { OnOk result (self.new ≡ (if nat_eq (k % 8) 0 then planned edit self.old else applied edit self.old)) }
    {
        if k % 8 == 0 {
            self.plan(edit)
        } else {
            self.apply(edit)
        }
    }

    // Keeps the newest version four edits after each eighth.
    fn keep_at(&mut self, k: u32) -> Result<(), AllocError>
        ensures { OnOk result (self.new ≡ (if nat_eq (k % 8) 4 then keep_of self.old else self.old)) }
    {
        if k % 8 == 4 { self.keep() } else { Ok(()) }
    }

    /// Makes the edit with this number, counted from 1: each eighth is planned on the kept version,
    /// and four later the version afterwards is kept.
    #[tactic(auto, unfolding(crate::specs::Trials::point_step))]
    pub(crate) fn step(&mut self, k: u32, edit: Edit) -> Result<(), AllocError>
        requires refused { self.old.refused < 2 ^ 32 - 1 }
        requires conflicts { self.old.conflicts < 2 ^ 32 - 1 }
        ensures { OnOk result (self.new ≡ point_step k edit self.old) }
    {
        self.make(k, edit)?;
        self.keep_at(k)
    }

    /// The places of the points, in place order.
    pub(crate) fn places(&self) -> Result<Vec<Place>, AllocError>
        ensures places { IfOk result (λ places. places.items ≡ points_of (content_of self.now.journal.entries)) }
        ensures few { IfOk result (λ places. length places.items < 2 ^ 32) }
    {
        let version = self.store.newest()?;
        // Only the proof reads it: there are no more places than a u32 can count.
        let _count = version.points();
        let places = version.places()?;
        Ok(places)
    }

    /// The report, as things stand.
    #[tactic(auto, unfolding(crate::specs::Trials::report_on))]
    pub(crate) fn report(&self, seed: u64, count: u32) -> Result<Report, AllocError>
        ensures { IfOk result (λ report. report ≡ report_on seed count self.now) }
    {
        let version = self.store.newest()?;
        let volume = volume(&version, datum());
        Ok(Report {
            seed,
            count,
            front: version.front(),
            points: version.points(),
            lines: version.lines(),
            refused: self.refused,
            conflicts: self.conflicts,
            facets: version.facets(),
            cut: volume.cut,
            fill: volume.fill,
            net: volume.net,
        })
    }
}

// The datum of the volume: 5.000.
fn datum() -> Level
    ensures { result ≡ pos 5000 }
{
    match Level::new(5_000) {
        Some(level) => level,
        None => unreachable!(),
    }
}
