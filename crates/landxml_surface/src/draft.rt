//! What a surface is loaded from.

use ground_model::{Level, LineKind, Listed, Place, Places};
use ground_num::Head;

/// Points in the order of their first triples.
pub type PointList = Listed<(Place, Level)>;

/// Lines in document order, cleaned of repeated places and without those that are then too short.
pub type LineList = Listed<(LineKind, Places)>;

/// The corners of the faces, in document order.
pub type FaceList = Listed<(Place, Place, Place)>;

/// One draft for each surface, in document order.
pub type Drafts = Listed<Draft>;

/// A surface of a document, as it is seen from its origin.
#[derive(Drop)]
pub struct Draft {
    pub head: Head,
    pub points: PointList,
    pub lines: LineList,
    pub faces: FaceList,
    /// How many triples repeat the place and the level of an earlier one.
    pub doubles: u32,
    /// How many triples have the place of an earlier one, but another level: the earlier one counts.
    pub clashes: u32,
    /// How many lines have too few places left.
    pub short: u32,
}
