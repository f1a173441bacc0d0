//! The law of the pieces.

ghost use Rattle.ground_model.specs.Planar.{LegalIsPlanar};

/// Whatever lawful edits made it, a content has no two pieces that cross, each place of its lines
/// is a point, and the number to come is above those of its lines.
pub fn planar_law()
    ensures { LegalIsPlanar }
{}
