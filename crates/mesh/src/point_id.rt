//! The number of a point of a mesh.

/// Four times a slot, and the corner there: the place that stands now at that corner of that live
/// slot. A point has as many numbers as triangles.
#[derive(Clone, Copy, Debug, PartialEq, Eq)]
pub struct PointId(pub u32);
