//! Laws of the meshes that the steps keep, and of what the steps make of their points and pieces.

ghost use Rattle.mesh.specs.Sheets.{NetLaw, SheetLaw};
ghost use Rattle.mesh.specs.StepLaws.{ConvexLaw, DelaunayLaw, EdgeSplitLaw, EdgeUnsplitLaw, FlipsLaw, IllegalLaw, RecountLaw, SplitLaw, UnsplitLaw};

/// A mesh whose triangles are counterclockwise is a sheet of the places among its corners, with the
/// counts of its edges; and there is such a net.
pub fn sheet_law()
    ensures sheet { SheetLaw }
    ensures net { NetLaw }
{}

/// The net of a mesh is locally Delaunay exactly where no edge of the mesh is illegal. So after `legalize`
/// its triangles of three places are the facets of its points and pieces.
pub fn delaunay_law()
    ensures { DelaunayLaw }
{}

/// An edge that is no piece and not locally Delaunay can be flipped: its quadrilateral is strictly convex.
pub fn convex_law()
    ensures { ConvexLaw }
{}

/// An edge of a mesh that is no piece and not locally Delaunay is so in the mesh's net. So neither of the two
/// triangles that its flip takes out is a facet of the net's points and pieces, by the laws of flips.
pub fn illegal_law()
    ensures { IllegalLaw }
{}

/// Lawson's flips leave the points and the pieces.
pub fn flips_law()
    ensures { FlipsLaw }
{}

/// The split of a triangle adds its place, which was no point, and leaves the pieces.
pub fn split_law()
    ensures { SplitLaw }
{}

/// The split of an edge adds its place, which was no point, and parts the edge: both parts have its count.
pub fn edge_split_law()
    ensures { EdgeSplitLaw }
{}

/// A changed count is that of one edge; the points stay.
pub fn recount_law()
    ensures { RecountLaw }
{}

/// What takes a corner out of three triangles takes out that point alone, and leaves the pieces.
pub fn unsplit_law()
    ensures { UnsplitLaw }
{}

/// What takes a corner out of four triangles undoes a split of an edge.
pub fn edge_unsplit_law()
    ensures { EdgeUnsplitLaw }
{}
