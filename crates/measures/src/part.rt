//! The volume of one facet.

ghost use Rattle.std.specs.Prelude.{◌≡◌, ◌≤◌, ◌^◌, ◌*◌, ◌||◌, [], ◌∷◌, true, false, not, ◌+ℤ◌, ◌-ℤ◌, ◌*ℤ◌, unsigned_abs, count_by, nat_eq};
ghost use Rattle.std.specs.List.{list_any};
ghost use Rattle.ground_model.specs.Volume.{is_above, is_below, turned_over, part_above as part_above_of, facet_volume as facet_volume_of, volume_on as volume_on_of};
ghost use Rattle.measures.specs.Volumes.{IsOfFacets};

use crate::cap::cap_over;
use crate::post::Post;
use ground_model::{Level, Slope, Volume};
use predicates::exact_side;

// Whether no corner is below the datum.
fn is_none_below(x: &Post, y: &Post, z: &Post) -> bool
    ensures { result ≡ not (list_any is_below (x.now ∷ y.now ∷ z.now ∷ [])) }
{
    !x.is_below() && !y.is_below() && !z.is_below()
}

// Whether no corner is above the datum.
fn is_none_above(x: &Post, y: &Post, z: &Post) -> bool
    ensures { result ≡ not (list_any is_above (x.now ∷ y.now ∷ z.now ∷ [])) }
{
    !x.is_above() && !y.is_above() && !z.is_above()
}

// Whether just one corner is above the datum.
fn is_one_above(x: &Post, y: &Post, z: &Post) -> bool
    ensures { result ≡ nat_eq (count_by is_above (x.now ∷ y.now ∷ z.now ∷ [])) 1 }
{
    if x.is_above() {
        !y.is_above() && !z.is_above()
    } else {
        y.is_above() != z.is_above()
    }
}

// What lies above the datum, where just one corner does.
fn part_above(area: i128, x: &Post, y: &Post, z: &Post) -> i128
    requires area { unsigned_abs area ≤ 2 ^ 61 }
    requires one { nat_eq (count_by is_above (x.now ∷ y.now ∷ z.now ∷ [])) 1 ≡ true }
    ensures value { result ≡ part_above_of area x.now y.now z.now }
    ensures size { unsigned_abs result ≤ 2 ^ 88 }
{
    if x.is_above() {
        cap_over(area, x, y, z)
    } else if y.is_above() {
        cap_over(area, y, z, x)
    } else {
        cap_over(area, z, x, y)
    }
}

// What lies below the datum, where just one corner does: the part above of the facet turned over.
fn part_below(area: i128, x: &Post, y: &Post, z: &Post) -> i128
    requires area { unsigned_abs area ≤ 2 ^ 61 }
    requires some_below { not (list_any is_below (x.now ∷ y.now ∷ z.now ∷ [])) ≡ false }
    requires some_above { not (list_any is_above (x.now ∷ y.now ∷ z.now ∷ [])) ≡ false }
    requires more_above { nat_eq (count_by is_above (x.now ∷ y.now ∷ z.now ∷ [])) 1 ≡ false }
    ensures value { result ≡ part_above_of area (turned_over x.now) (turned_over y.now) (turned_over z.now) }
    ensures size { unsigned_abs result ≤ 2 ^ 88 }
{
    part_above(area, &x.turned_over(), &y.turned_over(), &z.turned_over())
}

// The sum of the heights.
fn heights(x: &Post, y: &Post, z: &Post) -> i128
    ensures value { result ≡ x.now.level +ℤ y.now.level +ℤ z.now.level }
    ensures size { unsigned_abs result ≤ 3 * 2 ^ 27 }
{
    x.height() + y.height() + z.height()
}

// The area times the sum of the heights.
fn net_of(area: i128, sum: i128) -> i128
    requires area { unsigned_abs area ≤ 2 ^ 61 }
    requires sum { unsigned_abs sum ≤ 3 * 2 ^ 27 }
    ensures value { result ≡ area *ℤ sum }
    ensures size { unsigned_abs result ≤ 3 * 2 ^ 88 }
{
    area * sum
}

// The volume of a facet with this area, twice over, by its corners.
#[tactic(auto, unfolding(ground_model::specs::Volume::facet_volume))]
fn facet_volume(area: i128, x: &Post, y: &Post, z: &Post) -> Volume
    requires area { unsigned_abs area ≤ 2 ^ 61 }
    ensures value { result ≡ facet_volume_of area x.now y.now z.now }
    ensures net { result.cut -ℤ result.fill ≡ result.net }
    ensures size { IsOfFacets 1 result }
{
    let net = net_of(area, heights(x, y, z));
    if is_none_below(x, y, z) {
        Volume {
            cut: net,
            fill: 0,
            net,
        }
    } else if is_none_above(x, y, z) {
        Volume {
            cut: 0,
            fill: -net,
            net,
        }
    } else if is_one_above(x, y, z) {
        let cut = part_above(area, x, y, z);
        Volume {
            cut,
            fill: cut - net,
            net,
        }
    } else {
        let fill = part_below(area, x, y, z);
        Volume {
            cut: fill + net,
            fill,
            net,
        }
    }
}

/// The volume of one facet: what of it lies above the datum, and what is missing below it.
pub(crate) fn volume_on(datum: Level, slope: &Slope) -> Volume
    ensures value { result ≡ volume_on_of datum slope.now }
    ensures net { result.cut -ℤ result.fill ≡ result.net }
    ensures size { IsOfFacets 1 result }
{
    let facet = &slope.facet;
    facet_volume(
        i128::from(exact_side(facet.a, facet.b, facet.c)),
        &Post::over(datum, facet.a, slope.za),
        &Post::over(datum, facet.b, slope.zb),
        &Post::over(datum, facet.c, slope.zc),
    )
}
