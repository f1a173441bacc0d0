//! Laws of the meshes that points are put into and taken out of, and of the stars of points that are taken out.

ghost use Rattle.point_edit.specs.Contents.{AddedLaw, ContentLaw, RemovableLaw, RemovedLaw};
ghost use Rattle.point_edit.specs.Stars.{ProgressLaw, StraightLaw};

/// The triangles of a mesh over a content's points and counts are a sheet of it, and its facets are the
/// content's.
pub fn content_law()
    ensures { ContentLaw }
{}

/// A point put into a mesh of a content makes a mesh of the content after the point is added: no piece ends at
/// it or runs over it but the two parts of the edge that it splits.
pub fn added_law()
    ensures { AddedLaw }
{}

/// A point that no line has, taken out of a mesh of a content, leaves a mesh of the content after the point is
/// removed: two pieces at it are parts of one that runs over it, and no other piece does.
pub fn removed_law()
    ensures { RemovedLaw }
{}

/// A point that may be taken out of a planar content can be taken out of its mesh: pieces at it are the two parts
/// of one that runs over it, since of two such pieces one crosses the other, or both are one.
pub fn removable_law()
    ensures { RemovableLaw }
{}

/// Flips bring the star of a point that has no counted edge down to three triangles, or to four with the point
/// straight between two neighbours: while there are more, an edge at the point can be flipped, which takes one
/// triangle from the star.
pub fn progress_law()
    ensures { ProgressLaw }
{}

/// So they do with a point on a counted pair of edges that goes straight on: of two or more neighbours on one
/// side of the pair, one has an edge that can be flipped.
pub fn straight_law()
    ensures { StraightLaw }
{}
