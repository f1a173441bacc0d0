//! Laws of the predicates, and of the sheets that a mesh keeps.

ghost use Rattle.predicates.specs.Laws.{NeverTies};
ghost use Rattle.predicates.specs.Tiling.{ClosedLaw, Covers, NeverCross, OneOnEdge, Packs};

/// The in-circle test never ties: the lifted fourth place is not in the plane of the other three.
pub fn tie_law()
    ensures { NeverTies }
{}

/// Each sum of places lies in a closed triangle of a sheet.
pub fn cover_law()
    ensures { Covers }
{}

/// No weighted point lies strictly inside two triangles of a sheet.
pub fn pack_law()
    ensures { Packs }
{}

/// No two edges of a sheet cross.
pub fn cross_law()
    ensures { NeverCross }
{}

/// An edge of a sheet has one triangle on its left.
pub fn owner_law()
    ensures { OneOnEdge }
{}

/// A closed net that is spanned is a sheet: where with the rim each edge occurs as often as its reverse, no edge occurs
/// twice, and no triangle has a point but its corners. So whoever changes the triangles of a sheet owes only that.
pub fn closed_law()
    ensures { ClosedLaw }
{}
