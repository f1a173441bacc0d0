//! What a version is written as, read and loaded again.

ghost use Rattle.draft_load.specs.Law.{LoadLaw};

/// Of the document of a version with a legal history, read with the version's origin given, there is one
/// draft. No edit of it is refused under the version's limits or larger ones, and the store that `load`
/// makes of it is written as the same text.
pub fn load_law()
    ensures { LoadLaw }
{}
