//! The volume over a datum.

ghost use Rattle.std.specs.Prelude.{◌≡◌, ◌≤◌, ◌^◌, ◌++◌, [], ◌-ℤ◌, List, unsigned_abs};
ghost use Rattle.std.specs.List.{cons_option};
ghost use Rattle.ground_model.specs.declared.slope.Slope.{Slope};
ghost use Rattle.ground_model.specs.Volume.{plus as plus_of, volume_over};
ghost use Rattle.measures.specs.Volumes.{IsOfFacets, IsSumOf};

use crate::part::volume_on;
use ground_model::{Level, Relief, Slope, Volume};

// The sum of two volumes.
fn plus(sum: &Volume, part: &Volume) -> Volume
    requires sum { IsOfFacets (2 ^ 30) sum.now }
    requires part { IsOfFacets 1 part.now }
    ensures { result ≡ plus_of sum.now part.now }
{
    Volume {
        cut: sum.cut + part.cut,
        fill: sum.fill + part.fill,
        net: sum.net + part.net,
    }
}

// The sum with what lies at one more slot.
fn with_slope(sum: Volume, datum: Level, slope: Option<Slope>) -> Volume
    requires { IsOfFacets (2 ^ 30) sum }
    ensures { (seen : List Slope) → IsSumOf datum seen sum → IsSumOf datum (seen ++ cons_option slope []) result }
{
    match slope {
        None => sum,
        Some(slope) => plus(&sum, &volume_on(datum, &slope)),
    }
}

/// What lies above the datum, what is missing below it, and the difference, in sixths of a cubic
/// thousandth. On each facet the part of the one corner that is alone above, or alone below, is
/// rounded up on two edges, and the other part is that less the difference: so `cut - fill = net`
/// always. It costs one `slope` of the relief for each slot, and takes no memory.
pub fn volume<R: Relief>(relief: &R, datum: Level) -> Volume
    ensures value { result ≡ volume_over (R.slopes relief.now) datum }
    ensures net { result.cut -ℤ result.fill ≡ result.net }
    ensures cut_size { unsigned_abs result.cut ≤ 2 ^ 120 }
    ensures fill_size { unsigned_abs result.fill ≤ 2 ^ 120 }
    ensures net_size { unsigned_abs result.net ≤ 2 ^ 120 }
{
    let mut sum = Volume {
        cut: 0,
        fill: 0,
        net: 0,
    };
    for slot in 0..relief.slots() {
        sum = with_slope(sum, datum, relief.slope(slot));
    }
    sum
}
