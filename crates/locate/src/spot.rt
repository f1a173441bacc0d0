//! Where a place lies in a mesh.

/// Where a place lies: strictly inside the triangle of a slot, on an edge of it strictly between the
/// ends, or at a corner of it. Edge 0 goes from corner 0 to corner 1.
#[derive(Clone, Copy, Debug, PartialEq, Eq)]
pub enum Spot {
    Inside(u32),
    OnEdge(u32, u8),
    Corner(u32, u8),
}
