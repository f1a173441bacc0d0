//! A relief that is kept as a list.

ghost use Rattle.std.specs.Prelude.{◌≡◌};
ghost use Rattle.measures.specs.SlopeList.{IsRelief};

use ground_model::{Listed, Place, Relief, Slope};
use predicates::holds;
use std::marker::Model;

/// The kept facets of a surface with their levels, fewer than 2^30, in facet order, each at the
/// slot of its index. `holding` tests one facet after the other.
#[derive(Drop)]
pub struct SlopeList {
    slopes: Listed<Slope>,
}

impl Model for SlopeList {
    ghost use Rattle.std.specs.Prelude.{List};
    ghost use Rattle.ground_model.specs.declared.slope.Slope.{Slope};
    ghost use Rattle.measures.specs.SlopeList.{IsRelief};

    ghost Value = { List Slope };

    ghost view = { λ list. list.slopes };

    ghost invariant = { λ list. IsRelief list.slopes };
}

impl SlopeList {
    /// The list as a relief. Takes no memory.
    pub fn new(slopes: Listed<Slope>) -> SlopeList
        requires { IsRelief slopes }
        ensures { result ≡ slopes }
    {
        SlopeList { slopes }
    }

    /// The slopes in facet order.
    pub fn as_slice(&self) -> &[Slope]
        ensures slopes { result.now ≡ self.now }
        ensures relief { IsRelief result.now }
    {
        self.slopes.as_slice()
    }
}

impl Relief for SlopeList {
    ghost use Rattle.std.specs.Prelude.{map, Some};
    ghost use Rattle.measures.specs.SlopeList.{level_in};

    ghost slopes = { λ list. list };

    ghost table = { λ list. map Some list };

    ghost corner_level = { level_in };

    fn slots(&self) -> u32 {
        self.slopes.len() as u32
    }

    fn slope(&self, slot: u32) -> Option<Slope> {
        self.slopes.get(slot as usize).copied()
    }

    fn holding(&self, place: Place) -> Option<Slope> {
        self.slopes
            .as_slice()
            .iter()
            .copied()
            .find(|slope| holds(&slope.facet, place))
    }
}
