//! LandXML documents, read from bytes in any pieces into the lists that they hold.
//! It never asks what a place, a line or a face means.
#![tactic(auto)]

mod act;
mod buffer;
mod byte;
mod collect;
mod course;
mod decode;
mod element;
mod fault;
mod gather;
mod kind;
mod letter;
mod level;
mod list;
mod markup;
mod number;
mod outline;
mod raw;
mod reader;
mod reference;
mod scan;
mod skipped;
mod standing;
mod tag;
mod tokens;
mod told;
mod utf8;
mod values;
mod verdict;

pub use fault::{DocCause, DocFault, ReadFault};
pub use list::RawList;
pub use markup::Outline;
pub use raw::{
    Pair2, Pairs, RawDoc, RawFace, RawFaces, RawId, RawIds, RawKind, RawLine, RawLines, RawSurface,
    RawSurfaces, RawVertex, RawVertices, Triple, Triples,
};
pub use reader::Reader;
