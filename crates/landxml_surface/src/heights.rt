//! The points of a surface, by their places.

ghost use Rattle.std.specs.Prelude.{◌≡◌, ◌+◌, ◌<◌, ◌^◌, ◌++◌, ◌∷◌, [], List, length, IfOk, OnOk, if◌then◌else◌};
ghost use Rattle.std.specs.Ordering.{int_eq};
ghost use Rattle.indexmap.specs.IndexMap.{get};
ghost use Rattle.landxml_read.specs.declared.raw.Triple.{Triple as ATriple};
ghost use Rattle.landxml_surface.specs.Heights.{is_same_spot};
ghost use Rattle.landxml_surface.specs.Notes.{AreHeights};

use crate::spot::{Spot, spot_of};
use ground_num::Thousandths;
use indexmap::IndexMap;
use landxml_read::Triple;
use std::alloc::{AllocError, Global};

/// The first level at each place, places in the order of their first triples, and how often a place
/// came again.
#[derive(Drop)]
pub(crate) struct Heights {
    pub(crate) levels: IndexMap<Spot, Thousandths>,
    /// With the level that it had.
    pub(crate) doubles: u32,
    /// With another level.
    pub(crate) clashes: u32,
}

// Whether the levels are equal.
fn is_level(level: Thousandths, other: Thousandths) -> bool
    ensures { result ≡ int_eq level.0 other.0 }
{
    level == other
}

impl Heights {
    // No point.
    fn new(alloc: Global) -> Heights
        ensures { AreHeights [] result }
    {
        Heights {
            levels: IndexMap::new(alloc),
            doubles: 0,
            clashes: 0,
        }
    }

    /// The level at the place.
    pub(crate) fn level(&self, spot: &Spot) -> Option<Thousandths>
        ensures { result ≡ get is_same_spot self.now.levels spot.now }
    {
        self.levels.get(spot).copied()
    }

    // A place came again, with its level or with another.
    fn count(&mut self, is_double: bool)
        requires doubles { self.old.doubles + 1 < 2 ^ 32 }
        requires clashes { self.old.clashes + 1 < 2 ^ 32 }
        ensures levels { self.new.levels ≡ self.old.levels }
        ensures doubles { self.new.doubles ≡ self.old.doubles + (if is_double then 1 else 0) }
        ensures clashes { self.new.clashes ≡ self.old.clashes + (if is_double then 0 else 1) }
    {
        if is_double {
            self.doubles += 1;
        } else {
            self.clashes += 1;
        }
    }

    // One triple more.
    fn note(&mut self, triple: &Triple) -> Result<(), AllocError>
        requires doubles { self.old.doubles + 1 < 2 ^ 32 }
        requires clashes { self.old.clashes + 1 < 2 ^ 32 }
        ensures { (ts : List ATriple) → AreHeights ts self.old → OnOk result (AreHeights (ts ++ triple.now ∷ []) self.new) }
    {
        let spot = spot_of(triple);
        match self.level(&spot) {
            None => match self.levels.insert(spot, triple.z) {
                Ok(_) => Ok(()),
                Err(_) => Err(AllocError),
            },
            Some(level) => {
                self.count(is_level(level, triple.z));
                Ok(())
            }
        }
    }

    /// The points of these triples.
    pub(crate) fn of(alloc: Global, triples: &[Triple]) -> Result<Heights, AllocError>
        requires { length triples.now < 2 ^ 32 }
        ensures { IfOk result (AreHeights triples.now) }
    {
        let mut heights = Heights::new(alloc);
        for triple in triples {
            heights.note(triple)?;
        }
        Ok(heights)
    }
}
