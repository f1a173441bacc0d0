//! Loads a draft, edit by edit.

ghost use Rattle.std.specs.Prelude.{◌≡◌, ◌<◌, ◌≤◌, ◌+◌, ◌-◌, ◌^◌, ◌∷◌, [], ℕ, Err, length, map, IfOk};
ghost use Rattle.ground_num.specs.Head.{IsOrigin};
ghost use Rattle.ground_model.specs.declared.refusal.Refusal.{Refusal as Cause};
ghost use Rattle.draft_load.specs.declared.fault.LoadFault.TheVariants as faults;
ghost use Rattle.document_law.specs.Reloaded.{point_edit, line_edit, edits_of};
ghost use Rattle.draft_load.specs.Loads.{ground_of, Ends, Loads, Refuses};

use crate::fault::LoadFault;
use ground_model::{Edit, Level, Limits, LineKind, Place, Places, Refusal};
use ground_num::{Head, Name};
use landxml_surface::Draft;
use page_vec::Steps;
use std::alloc::{AllocError, Global};
use std::marker::Brand;
use std::sync::ledger::{Blank, Ledger};
use store::{Applied, Store};

/// The author of what is loaded.
const AUTHOR: u16 = 0;

// The number of the line that is added at the front, or 0 where a point is.
fn line_number(front: u32, points: usize) -> u32
    requires { front ≤ 2 ^ 24 }
    ensures { result ≡ front + 1 - points }
{
    (front as usize + 1).saturating_sub(points) as u32
}

// Makes an edit of a draft with so many points, counted by a counter of its own. Where it is unlawful
// it gives the line's number with the cause, and nothing is changed.
fn make_on<L: Ledger>(
    store: &mut Store,
    points: usize,
    edit: Edit,
    blank: Blank,
) -> Result<Option<(u32, Refusal)>, AllocError>
    requires name { blank.name ≡ L.name }
    requires parts { blank.parts ≡ L.parts }
    requires writable { 0 < L.parts }
    ensures { IfOk result (Ends points store.old.journal store.new.journal (edit ∷ [])) }
{
    match store.apply(AUTHOR, edit, &mut Steps::<L>::new(blank)) {
        Applied::Done(_, _) => Ok(None),
        Applied::Refused(version, refusal) => {
            Ok(Some((line_number(version.front(), points), refusal)))
        }
        Applied::Memory(_) => Err(AllocError),
    }
}

// Makes an edit of a draft with so many points.
fn make(store: &mut Store, points: usize, edit: Edit) -> Result<Option<(u32, Refusal)>, AllocError>
    ensures { IfOk result (Ends points store.old.journal store.new.journal (edit ∷ [])) }
{
    make_on::<Brand>(store, points, edit, Blank::new(1))
}

// Adds the points, up to the first that is unlawful.
fn add_points(
    store: &mut Store,
    points: &[(Place, Level)],
) -> Result<Option<(u32, Refusal)>, AllocError>
    ensures { IfOk result (Ends (length points.now) store.old.journal store.new.journal (map point_edit points.now)) }
{
    for point in points {
        if let Some(refused) = make(store, points.len(), Edit::AddPoint(point.0, point.1))? {
            return Ok(Some(refused));
        }
    }
    Ok(None)
}

// Adds a line to a draft with so many points.
fn add_line(
    store: &mut Store,
    alloc: Global,
    points: usize,
    line: &(LineKind, Places),
) -> Result<Option<(u32, Refusal)>, AllocError>
    ensures { IfOk result (Ends points store.old.journal store.new.journal (line_edit line.now ∷ [])) }
{
    let places = Places::from_slice(alloc, line.1.as_slice())?;
    make(store, points, Edit::AddLine(line.0, places))
}

// Adds the lines to a draft with so many points, up to the first that is unlawful.
fn add_lines(
    store: &mut Store,
    alloc: Global,
    points: usize,
    lines: &[(LineKind, Places)],
) -> Result<Option<(u32, Refusal)>, AllocError>
    ensures { IfOk result (Ends points store.old.journal store.new.journal (map line_edit lines.now)) }
{
    for line in lines {
        if let Some(refused) = add_line(store, alloc, points, line)? {
            return Ok(Some(refused));
        }
    }
    Ok(None)
}

// Makes the edits of the draft, up to the first that is unlawful.
fn make_all(
    store: &mut Store,
    alloc: Global,
    draft: &Draft,
) -> Result<Option<(u32, Refusal)>, AllocError>
    ensures { IfOk result (Ends (length draft.now.points) store.old.journal store.new.journal (edits_of draft.now)) }
{
    let points = draft.points.as_slice();
    if let Some(refused) = add_points(store, points)? {
        return Ok(Some(refused));
    }
    add_lines(store, alloc, points.len(), draft.lines.as_slice())
}

// The head of a draft, for a store of its own.
fn copied(alloc: Global, head: &Head) -> Result<Head, AllocError>
    ensures { IfOk result (λ copy. copy ≡ head.now) }
{
    match Name::from_bytes(alloc, head.name.as_bytes()) {
        Ok(name) => Ok(Head {
            name,
            unit: head.unit,
            origin: head.origin,
        }),
        Err(_) => Err(AllocError),
    }
}

// The surface of a draft before its edits.
fn ground(alloc: Global, draft: &Draft, limits: Limits) -> Result<Store, AllocError>
    requires { IsOrigin draft.now.head.origin }
    ensures { IfOk result (λ store. store.journal ≡ ground_of draft.now limits) }
{
    Store::empty(alloc, copied(alloc, &draft.head)?, limits)
}

/// A store whose surface has the draft's points, then its lines, each as the next entry of author 0,
/// or the first of these edits that is unlawful. Its cost is that of applying the edits.
pub fn load(alloc: Global, draft: &Draft, limits: Limits) -> Result<Store, LoadFault>
    requires { IsOrigin draft.now.head.origin }
    ensures ok { IfOk result (λ store. Loads (ground_of draft.now limits) store.journal (edits_of draft.now)) }
    ensures refused { (line : ℕ) (cause : Cause) → result ≡ Err (faults.Refused line cause) → Refuses (ground_of draft.now limits) (edits_of draft.now) (length draft.now.points) line cause }
{
    let Ok(mut store) = ground(alloc, draft, limits) else {
        return Err(LoadFault::Memory);
    };
    match make_all(&mut store, alloc, draft) {
        Ok(None) => Ok(store),
        Ok(Some((line, refusal))) => Err(LoadFault::Refused { line, refusal }),
        Err(AllocError) => Err(LoadFault::Memory),
    }
}
