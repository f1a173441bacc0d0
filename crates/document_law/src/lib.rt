//! The laws of written documents: what is written of a surface is read back as the same surface. They are laws over the
//! definitions of the writer, the reader and the drafts; they never ask how a document is written or read.
#![tactic(auto)]

ghost use Rattle.document_law.specs.Law.{DocumentLaw};
ghost use Rattle.document_law.specs.Reloaded.{ReloadLaw};
ghost use Rattle.document_law.specs.Version.{VersionLaw};

/// The written document of a surveyed surface, read with the surface's origin given, is one draft and no other: the
/// same name, unit and origin, the same points with the same levels, the rings in the order of their numbers and then
/// the breaklines in theirs, and the same facets; no triple clashes and no line is left out.
pub fn document_law()
    ensures { DocumentLaw }
{}

/// What a version with a legal history shows is such a surface, where the coordinates that are written of its points
/// are within the limit of a number of a document: so it is read back.
pub fn version_law()
    ensures { VersionLaw }
{}

/// What is loaded from that draft, an edit for each point and then one for each line, is lawful under the version's
/// limits or larger ones, and is written as the same text: its lines have other numbers, but the same facets are kept.
pub fn reload_law()
    ensures { ReloadLaw }
{}
