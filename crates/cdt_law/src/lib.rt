//! Laws of sheets, the triangulations of a mesh that reaches to the far corners: a sheet tiles, and a locally Delaunay one
//! is the constrained Delaunay triangulation, of which there is only one; and laws of flips. It never asks how a sheet is kept.
#![tactic(auto)]

ghost use Rattle.cdt_law.specs.Boundary.{BoundaryLaw};
ghost use Rattle.cdt_law.specs.Corners.{CornerLaw};
ghost use Rattle.cdt_law.specs.EdgeCounts.{CountLaw};
ghost use Rattle.cdt_law.specs.Enclose.{EncloseLaw};
ghost use Rattle.cdt_law.specs.Flips.{DestroyedLaw, EditLaw, FallLaw, FlipLaw, KeptLaw};
ghost use Rattle.cdt_law.specs.Hull.{HullLaw};
ghost use Rattle.cdt_law.specs.Limits.{LimitLaw};
ghost use Rattle.cdt_law.specs.Order.{OrderLaw};
ghost use Rattle.cdt_law.specs.Patch.{PatchLaw};
ghost use Rattle.cdt_law.specs.Pieces.{PieceLaw};
ghost use Rattle.cdt_law.specs.Point.{PointLaw};
ghost use Rattle.cdt_law.specs.Plans.{PlanLaw};
ghost use Rattle.cdt_law.specs.Stale.{ZoneLaw};
ghost use Rattle.cdt_law.specs.StalePlan.{StaleLaw};
ghost use Rattle.cdt_law.specs.Star.{StarLaw};
ghost use Rattle.cdt_law.specs.Vertices.{VertexLaw};
ghost use Rattle.cdt_law.specs.Laws.{EdgeLaw, FacetLaw, FirstLaw, LocalLaw, NetLaw, OnceLaw, UniqueLaw};

/// The triangle of the far corners alone is a locally Delaunay sheet of no points: the laws below are about something.
pub fn first_law()
    ensures { FirstLaw }
{}

/// A sheet has no facet twice.
pub fn once_law()
    ensures { OnceLaw }
{}

/// Locally Delaunay implies walled: in a locally Delaunay sheet each point inside the circle of a triangle is walled
/// from the edge beyond which it lies. The corners of the triangle may be far.
pub fn local_law()
    ensures { LocalLaw }
{}

/// The triangles of three places of a locally Delaunay sheet of a content are, with their counts, the facets of the content.
pub fn facet_law()
    ensures { FacetLaw }
{}

/// The triangles of three places of a locally Delaunay sheet are, with their counts, the facets of its points and pieces.
/// A net need not be that of a content: between the pieces of a line that is added, a mesh is a sheet of none.
pub fn net_law()
    ensures { NetLaw }
{}

/// Two locally Delaunay sheets over the same points and pieces have the same facets.
pub fn unique_law()
    ensures { UniqueLaw }
{}

/// Two facets of a content with a directed edge in common are one, also where its pieces cross.
pub fn edge_law()
    ensures { EdgeLaw }
{}

/// The flip of an edge that is no piece and is not locally Delaunay (Lawson 1977) destroys no facet of the sheet's own
/// points and pieces: neither of the two triangles over it is one.
pub fn flip_law()
    ensures { FlipLaw }
{}

/// A triangle taken out of a sheet is no facet of another net, for one of five reasons: such a flip took it out, from
/// either side, and the other net has no pieces but those of the sheet; a piece of the other net crosses it; its corner is
/// no point there; or it has a point there. Each kind of edit has its reasons among these.
pub fn destroyed_law()
    ensures { DestroyedLaw }
{}

/// What an edit takes out of one of its sheets is not both a facet before and after: a facet that stays is never taken
/// out. The sheets between the pieces of a line are those of no content.
pub fn edit_law()
    ensures { EditLaw }
{}

/// A flip within a strictly convex quadrilateral, of an edge that is no piece, keeps a sheet.
pub fn kept_law()
    ensures { KeptLaw }
{}

/// The flip of an edge that is no piece and is not locally Delaunay keeps a sheet, and lowers the volume below its lifted
/// triangles, a natural number. So however such flips are chosen, they come to an end.
pub fn fall_law()
    ensures { FallLaw }
{}

/// A sheet does not depend on the order of its triangles, nor on the corner with which each begins.
pub fn order_law()
    ensures { OrderLaw }
{}

/// Triangles of a planned sheet fit into a newer one, in the place of triangles with the same boundary, where they have
/// beside them what they have in the planned sheet: the result is a locally Delaunay sheet, so its triangles of three
/// places are the facets of its points and pieces.
pub fn patch_law()
    ensures { PatchLaw }
{}

/// The facets reach to the convex hull: no point lies to the left of the edge across from a triangle's far corner, where
/// that is the highest of its corners.
pub fn hull_law()
    ensures { HullLaw }
{}

/// A point that is added makes just the facets that have it as a corner, and one that no line has as a place is removed
/// with just those: all others stay, with their counts.
pub fn point_law()
    ensures { PointLaw }
{}

/// What an edit destroys and what it makes have one boundary: of two sheets that enclose each other's points, the facets
/// that each has alone have the same edges on their outside, where none of these edges is on the hull.
pub fn boundary_law()
    ensures { BoundaryLaw }
{}

/// A point more that is within the hull changes no edge of the hull: where one of two locally Delaunay sheets has a point
/// more, and no facet that it has alone has an edge on the hull, each encloses the points of the other.
pub fn enclose_law()
    ensures { EncloseLaw }
{}

/// What an edit of the base makes fits into a newer sheet which still has what it destroys and what is beside that, where
/// none of these facets is on the hull: the result is a locally Delaunay sheet.
pub fn zone_law()
    ensures { ZoneLaw }
{}

/// The corners of what an edit makes are those of what it destroys: a point of the base that is a corner of what one of
/// two sheets has alone is a corner of what the base has alone.
pub fn corner_law()
    ensures { CornerLaw }
{}

/// What an edit of the base makes of a newer net, which still has what it destroys and what is beside that, has the
/// points that the edit makes of the newer net's as its corners, and no others but far ones.
pub fn vertex_law()
    ensures { VertexLaw }
{}

/// What an edit makes at a point that it adds, and destroys at one that it takes: the first has facets, and a newer net,
/// which still has what is destroyed, has nothing else at the second.
pub fn star_law()
    ensures { StarLaw }
{}

/// The base and a newer net, which count alike over the edges of what an edit destroys, do so over the edges of what it
/// makes.
pub fn count_law()
    ensures { CountLaw }
{}

/// A piece of the newest net that the edit leaves in its planned net is an edge of what the edit makes of the newest.
pub fn piece_law()
    ensures { PieceLaw }
{}

/// A plan that is no hull plan is right at a newer content which still has each facet and point of its zone: the newest mesh
/// with what the edit makes at the base, in the place of what it destroys there, is the mesh of the newest content after the
/// edit. So the facets are the newest ones without those destroyed and with those made.
pub fn plan_law()
    ensures { PlanLaw }
{}

/// Why a stale plan is right: a plan made at the base of a legal history, which is no hull plan, and of which no facet or
/// point has changed since, is right at the history's front, where its edit is lawful there.
pub fn stale_law()
    ensures { StaleLaw }
{}

/// The edit of such a plan is lawful at the history's front but for limits: if it is refused there, then because there is no
/// room for a point, a line, the places of lines or an entry. So no line need be looked at for a place, a crossing or a join.
pub fn limit_law()
    ensures { LimitLaw }
{}
