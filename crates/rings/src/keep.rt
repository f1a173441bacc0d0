//! Whether a facet is part of the surface.

ghost use Rattle.std.specs.Prelude.{◌≡◌, ◌&&◌, find, option_map, reverse};
ghost use Rattle.std.specs.List.{list_any};
ghost use Rattle.ground_model.specs.Kept.{is_in_outer as is_in_outer_of, is_outside_voids as is_outside_voids_of, lies_in_ring, is_kept};
ghost use Rattle.ground_model.specs.Kind.{is_outer as is_outer_of, is_void_or_island as is_void_or_island_of, is_island as is_island_of};
ghost use Rattle.ground_model.specs.Table.{live};

use crate::ray::lies_in;
use crate::tripled::Tripled;
use ground_model::{Facet, LineId};
use line_table::{Line, Lines};

/// Whether the facet is part of the surface: its centre lies in an outer ring, where there are
/// any, and in no void or island, or the one of the highest number that it lies in is an island.
/// It takes no memory. It goes once over the links of the outer rings up to one that has the
/// centre, and of the voids and islands from the last one down to one that has it.
pub fn kept(lines: &Lines, facet: &Facet) -> bool
    ensures { result ≡ is_kept (live lines.now) facet.now }
{
    let centre = Tripled::centre(facet);
    is_in_outer(lines, centre) && is_outside_voids(lines, centre)
}

#[tactic(auto, unfolding(ground_model::specs::Kept::is_in_outer))]
fn is_in_outer(lines: &Lines, centre: Tripled) -> bool
    ensures { result ≡ is_in_outer_of (live lines.now) centre }
{
    !has_outer(lines) || has_outer_round(lines, centre)
}

fn has_outer(lines: &Lines) -> bool
    ensures { result ≡ list_any (λ line. is_outer_of line.kind) (live lines.now) }
{
    lines.iter().any(|entry| entry.1.kind().is_outer())
}

// Whether the centre lies in an outer ring.
fn has_outer_round(lines: &Lines, centre: Tripled) -> bool
    ensures { result ≡ list_any (λ line. is_outer_of line.kind && lies_in_ring centre line) (live lines.now) }
{
    lines.iter().any(|entry| entry.1.kind().is_outer() && lies_in(centre, entry.1))
}

#[tactic(auto, unfolding(ground_model::specs::Kept::is_outside_voids))]
fn is_outside_voids(lines: &Lines, centre: Tripled) -> bool
    ensures { result ≡ is_outside_voids_of (live lines.now) centre }
{
    match last_void_or_island(lines, centre) {
        Some((_, line)) => line.kind().is_island(),
        None => true,
    }
}

// The void or island of the highest number that the centre lies in.
fn last_void_or_island(lines: &Lines, centre: Tripled) -> Option<(LineId, &Line)>
    ensures { option_map (λ entry. entry.1.now) result ≡ find (λ line. is_void_or_island_of line.kind && lies_in_ring centre line) (reverse (live lines.now)) }
{
    lines.iter().rev().find(|entry| entry.1.kind().is_void_or_island() && lies_in(centre, entry.1))
}
