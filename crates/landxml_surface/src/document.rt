//! The drafts of a document's surfaces, or the fault with the least offset.

ghost use Rattle.std.specs.Prelude.{◌≡◌, ◌∷◌, ◌++◌, [], List, None, Some, Err, map, length, bytes_eq, All, IfOk, OnOk, ◌&&◌, true, filter, filter_map, not, count_by};
ghost use Rattle.std.specs.List.{flat_map};
ghost use Rattle.ground_num.specs.Head.{IsOrigin};
ghost use Rattle.ground_model.specs.Place.{IsPlace, IsLevel};
ghost use Rattle.indexmap.specs.IndexMap.{get_by};
ghost use Rattle.landxml_read.specs.declared.fault.DocFault.{DocFault as AFault};
ghost use Rattle.landxml_read.specs.declared.fault.ReadFault.TheVariants.{Doc};
ghost use Rattle.landxml_read.specs.declared.raw.RawSurface.{RawSurface as ASurface};
ghost use Rattle.landxml_read.specs.Lawful.{IsLawful, IsLawfulSurface, IsLawfulTriple};
ghost use Rattle.landxml_surface.specs.Drafts.{draft_of, document_faults, IsRule, point_of, line_of, is_short, face_of};
ghost use Rattle.landxml_surface.specs.Faults.{surface_faults, earlier_fault, least_of};
ghost use Rattle.landxml_surface.specs.Ids.{AreIds, is_id};
ghost use Rattle.landxml_surface.specs.Heights.{heights as heights_of};
ghost use Rattle.landxml_surface.specs.Placed.{IsPlaced};
ghost use Rattle.landxml_surface.specs.Checked.{IsChecked};
ghost use Rattle.landxml_surface.specs.Notes.{AreHeights};
ghost use Rattle.landxml_surface.specs.Origins.{origin_by as origin_by_rule, from_origin};

use crate::check::{faces_fault, pairs_fault, triples_fault};
use crate::draft::{Draft, Drafts};
use crate::fault::earlier;
use crate::heights::Heights;
use crate::ids::{Ids, gather_ids};
use crate::line::Lines;
use crate::origin::{OriginRule, origin_by};
use crate::points::{faces_of, points_of};
use ground_model::{Level, Listed, Place};
use ground_num::{Head, LinearUnit, Name, Origin};
use landxml_read::{DocFault, RawDoc, RawSurface, ReadFault};
use std::alloc::{AllocError, Global};

// What a surface is checked and drafted with.
#[derive(Drop)]
struct Gathered<'a> {
    origin: Origin,
    heights: Heights,
    ids: Ids<'a>,
    least: Option<DocFault>,
}

// What a surface is checked and drafted with, and its least fault.
#[tactic(auto, unfolding(crate::specs::Faults::surface_faults))]
fn gather<'a>(
    alloc: Global,
    rule: OriginRule,
    surface: &'a RawSurface,
) -> Result<Gathered<'a>, AllocError>
    requires rule { IsRule rule }
    requires lawful { IsLawfulSurface surface.now }
    ensures origin { IfOk result (λ g. g.origin ≡ origin_by_rule rule surface.now.triples) }
    ensures within { IfOk result (λ g. IsOrigin g.origin) }
    ensures heights { IfOk result (λ g. AreHeights surface.now.triples g.heights) }
    ensures ids { IfOk result (λ g. AreIds surface.now.ids (λ name. get_by (λ k. bytes_eq name k.now) g.ids.triples)) }
    ensures least { IfOk result (λ g. g.least ≡ least_of (surface_faults rule surface.now)) }
{
    let origin = origin_by(rule, surface.triples.as_slice());
    let heights = Heights::of(alloc, surface.triples.as_slice())?;
    let (ids, repeated) = gather_ids(alloc, surface.ids.as_slice())?;
    let far = triples_fault(&origin, surface.triples.as_slice());
    let low = pairs_fault(&heights, surface.pairs.as_slice());
    let nameless = faces_fault(&ids, surface.faces.as_slice());
    let least = earlier(far, earlier(low, earlier(repeated, nameless)));
    Ok(Gathered {
        origin,
        heights,
        ids,
        least,
    })
}

// The points, the lines and the faces of a surface.
#[derive(Drop)]
struct Lists {
    points: Vec<(Place, Level)>,
    lines: Lines,
    faces: Vec<(Place, Place, Place)>,
}

// The lists of a surface without a fault.
fn lists_of(
    alloc: Global,
    surface: &RawSurface,
    gathered: &Gathered<'_>,
) -> Result<Lists, AllocError>
    requires lawful { IsLawfulSurface surface.now }
    requires placed { IsPlaced gathered.now.origin surface.now }
    requires heights { AreHeights surface.now.triples gathered.now.heights }
    requires ids { AreIds surface.now.ids (λ name. get_by (λ k. bytes_eq name k.now) gathered.now.ids.triples) }
    requires high { All (λ h. IsPlace (from_origin gathered.now.origin h.0) × IsLevel h.1.0) (heights_of surface.now.triples) }
    requires named { All (λ f. (is_id surface.now.ids f.a && is_id surface.now.ids f.b && is_id surface.now.ids f.c) ≡ true) surface.now.faces }
    ensures points { IfOk result (λ l. l.points.items ≡ map (point_of gathered.now.origin) (heights_of surface.now.triples)) }
    ensures lines { IfOk result (λ l. l.lines.kept.items ≡ filter (λ d. not (is_short d)) (map (line_of gathered.now.origin surface.now) surface.now.lines)) }
    ensures short { IfOk result (λ l. l.lines.short ≡ count_by is_short (map (line_of gathered.now.origin surface.now) surface.now.lines)) }
    ensures faces { IfOk result (λ l. l.faces.items ≡ filter_map (face_of gathered.now.origin surface.now) surface.now.faces) }
{
    let points = points_of(alloc, &gathered.origin, &gathered.heights)?;
    let lines = Lines::of(alloc, surface, &gathered.origin)?;
    let faces = faces_of(alloc, surface, &gathered.origin, &gathered.ids)?;
    Ok(Lists {
        points,
        lines,
        faces,
    })
}

// The parts of a surface's draft but for its name and unit.
#[derive(Drop)]
struct Parts {
    origin: Origin,
    lists: Lists,
    doubles: u32,
    clashes: u32,
}

// The parts of a surface's draft, or the surface's least fault.
#[derive(Drop)]
enum Checked {
    Faulty(DocFault),
    Sound(Parts),
}

// Looks for faults, and makes the lists where there is none.
fn check(alloc: Global, rule: OriginRule, surface: &RawSurface) -> Result<Checked, AllocError>
    requires rule { IsRule rule }
    requires lawful { IsLawfulSurface surface.now }
    ensures { IfOk result (λ checked. IsChecked rule surface.now checked) }
{
    let gathered = gather(alloc, rule, surface)?;
    if let Some(fault) = gathered.least {
        return Ok(Checked::Faulty(fault));
    }
    let lists = lists_of(alloc, surface, &gathered)?;
    Ok(Checked::Sound(Parts {
        origin: gathered.origin,
        lists,
        doubles: gathered.heights.doubles,
        clashes: gathered.heights.clashes,
    }))
}

// The draft of a surface of this name.
fn draft(unit: LinearUnit, name: Name, parts: Parts) -> Draft
    ensures head { result.head ≡ record { name = name; unit = unit; origin = parts.origin } }
    ensures points { result.points ≡ parts.lists.points.items }
    ensures lines { result.lines ≡ parts.lists.lines.kept.items }
    ensures faces { result.faces ≡ parts.lists.faces.items }
    ensures doubles { result.doubles ≡ parts.doubles }
    ensures clashes { result.clashes ≡ parts.clashes }
    ensures short { result.short ≡ parts.lists.lines.short }
{
    let Parts {
        origin,
        lists,
        doubles,
        clashes,
    } = parts;
    let Lists {
        points,
        lines,
        faces,
    } = lists;
    let Lines { kept, short } = lines;
    Draft {
        head: Head { name, unit, origin },
        points: Listed::from_vec(points),
        lines: Listed::from_vec(kept),
        faces: Listed::from_vec(faces),
        doubles,
        clashes,
        short,
    }
}

// The drafts so far, and the least fault.
#[derive(Drop)]
struct Surveyed {
    drafts: Vec<Draft>,
    least: Option<DocFault>,
}

impl Surveyed {
    // No surface.
    fn new(alloc: Global) -> Surveyed
        ensures drafts { result.drafts.items ≡ [] }
        ensures least { result.least ≡ None }
    {
        Surveyed {
            drafts: Vec::new(alloc),
            least: None,
        }
    }

    // One surface more.
    fn note(
        &mut self,
        alloc: Global,
        unit: LinearUnit,
        rule: OriginRule,
        surface: RawSurface,
    ) -> Result<(), AllocError>
        requires rule { IsRule rule }
        requires lawful { IsLawfulSurface surface }
        ensures least { OnOk result (self.new.least ≡ earlier_fault self.old.least (least_of (surface_faults rule surface))) }
        ensures drafts { OnOk result (least_of (surface_faults rule surface) ≡ None → self.new.drafts.items ≡ self.old.drafts.items ++ draft_of unit rule surface ∷ []) }
    {
        match check(alloc, rule, &surface)? {
            Checked::Faulty(fault) => self.least = earlier(self.least, Some(fault)),
            Checked::Sound(parts) => self.drafts.push(draft(unit, surface.name, parts))?,
        }
        Ok(())
    }
}

/// The drafts of a document's surfaces, or the fault with the least offset. A given origin is within
/// 2^50 thousandths. Takes time that grows with the length of the lists, not with their square.
pub fn surfaces(alloc: Global, doc: RawDoc, rule: OriginRule) -> Result<Drafts, ReadFault>
    requires rule { IsRule rule }
    requires lawful { IsLawful doc }
    ensures ok { IfOk result (λ drafts. (least_of (document_faults rule doc.surfaces) ≡ None) × (drafts ≡ map (draft_of doc.unit rule) doc.surfaces)) }
    ensures fault { (f : AFault) → result ≡ Err (Doc f) → least_of (document_faults rule doc.surfaces) ≡ Some f }
{
    let RawDoc { unit, surfaces } = doc;
    let mut all = Surveyed::new(alloc);
    for surface in surfaces.into_vec() {
        match all.note(alloc, unit, rule, surface) {
            Ok(()) => {}
            Err(_) => return Err(ReadFault::Memory),
        }
    }
    match all.least {
        Some(fault) => Err(ReadFault::Doc(fault)),
        None => Ok(Listed::from_vec(all.drafts)),
    }
}
