//! The contour at a level.

ghost use Rattle.std.specs.Prelude.{◌≡◌, ◌++◌, [], IfOk, OnOk, filter_map};
ghost use Rattle.std.specs.List.{cons_option, filter};
ghost use Rattle.std.specs.List.Sorted.{IsPermutation, IsSorted, IsStrictlySortedBy};
ghost use Rattle.ground_model.specs.Contour.{cut_of as cut_of_of, contour_at};
ghost use Rattle.measures.specs.SlopeList.{slope_cmp};
ghost use Rattle.contours.specs.Cuts.{is_cut};

use crate::facet::cut_of;
use ground_model::{Cut, Cuts, Level, Listed, Relief, Slope};
use std::alloc::{AllocError, Global};

// Keeps the slope, if there is one and the contour cuts it.
fn keep(found: &mut Vec<Slope>, contour: Level, slope: Option<Slope>) -> Result<(), AllocError>
    ensures { OnOk result (found.new.items ≡ found.old.items ++ filter (is_cut contour) (cons_option slope [])) }
{
    if let Some(slope) = slope {
        if cut_of(contour, &slope).is_some() {
            found.push(slope)?;
        }
    }
    Ok(())
}

// The slopes that the contour cuts, as they lie at the slots.
fn slopes_cut<R: Relief>(
    alloc: Global,
    relief: &R,
    contour: Level,
) -> Result<Vec<Slope>, AllocError>
    ensures found { IfOk result (λ found. found.items ≡ filter (is_cut contour) (filter_map (λ slope. slope) (R.table relief.now))) }
    ensures each_once { IsPermutation (filter_map (λ slope. slope) (R.table relief.now)) (R.slopes relief.now) }
    ensures in_order { IsStrictlySortedBy slope_cmp (R.slopes relief.now) }
{
    let mut found = Vec::new(alloc);
    for slot in 0..relief.slots() {
        keep(&mut found, contour, relief.slope(slot))?;
    }
    Ok(found)
}

// Puts the slopes in facet order.
fn order(slopes: &mut Vec<Slope>)
    ensures each { IsPermutation slopes.old.items slopes.new.items }
    ensures in_order { IsSorted slope_cmp slopes.new.items }
{
    slopes.sort_unstable_by_key(|slope| (slope.facet.a, (slope.facet.b, slope.facet.c)));
}

// Adds a cut, if there is one.
fn add(cuts: &mut Vec<Cut>, cut: Option<Cut>) -> Result<(), AllocError>
    ensures { OnOk result (cuts.new.items ≡ cuts.old.items ++ cons_option cut []) }
{
    if let Some(cut) = cut {
        cuts.push(cut)?;
    }
    Ok(())
}

// The cuts of the slopes.
fn cuts_of(alloc: Global, slopes: &[Slope], contour: Level) -> Result<Vec<Cut>, AllocError>
    ensures { IfOk result (λ cuts. cuts.items ≡ filter_map (cut_of_of contour) slopes.now) }
{
    let mut cuts = Vec::new(alloc);
    for slope in slopes {
        add(&mut cuts, cut_of(contour, slope))?;
    }
    Ok(cuts)
}

/// The cuts of the kept facets at a level, in facet order, each with the higher ground on its left.
/// A corner below the level is low, any other is high, and each kept facet with both has a cut. It
/// costs one `slope` of the relief for each slot, and then a sort of the facets that are cut. It
/// takes memory for these and for their cuts alone.
pub fn contour<R: Relief>(alloc: Global, relief: &R, level: Level) -> Result<Cuts, AllocError>
    ensures { IfOk result (λ cuts. cuts ≡ contour_at (R.slopes relief.now) level) }
{
    let mut slopes = slopes_cut(alloc, relief, level)?;
    order(&mut slopes);
    Ok(Listed::from_vec(cuts_of(alloc, &slopes, level)?))
}
