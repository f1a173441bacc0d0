//! What a document holds, in document order, each with its offset.

use crate::list::RawList;
use ground_num::{LinearUnit, Name, Thousandths};

/// A northing, an easting and an elevation of a three-dimensional list or a `P`.
#[derive(Clone, Copy, Debug, PartialEq, Eq)]
pub struct Triple {
    pub n: Thousandths,
    pub e: Thousandths,
    pub z: Thousandths,
    /// The offsets of the three numbers.
    pub n_at: u64,
    pub e_at: u64,
    pub z_at: u64,
}

/// A northing and an easting of a two-dimensional list.
#[derive(Clone, Copy, Debug, PartialEq, Eq)]
pub struct Pair2 {
    pub n: Thousandths,
    pub e: Thousandths,
    /// The offset of the northing.
    pub at: u64,
}

/// What a line is.
#[derive(Clone, Copy, Debug, PartialEq, Eq)]
pub enum RawKind {
    Breakline,
    Outer,
    Void,
    Island,
}

/// A vertex of a line: an index into the triples of its surface, or into its pairs.
#[derive(Clone, Copy, Debug, PartialEq, Eq)]
pub enum RawVertex {
    Triple(u32),
    Pair(u32),
}

/// A `Boundary` or a `Breakline`.
#[derive(Drop)]
pub struct RawLine {
    /// The offset of its `<`.
    pub at: u64,
    pub kind: RawKind,
    pub vertices: RawVertices,
}

/// A `P`, with the index of its triple.
#[derive(Drop)]
pub struct RawId {
    /// The offset of its `<`.
    pub at: u64,
    pub id: Name,
    pub triple: u32,
}

/// An `F`: the ids of its three corners.
#[derive(Drop)]
pub struct RawFace {
    /// The offset of its `<`.
    pub at: u64,
    pub a: Name,
    pub b: Name,
    pub c: Name,
}

/// A `Surface`.
#[derive(Drop)]
pub struct RawSurface {
    /// The offset of its `<`.
    pub at: u64,
    pub name: Name,
    pub triples: Triples,
    pub pairs: Pairs,
    pub lines: RawLines,
    pub ids: RawIds,
    pub faces: RawFaces,
}

/// A document without a fault.
#[derive(Drop)]
pub struct RawDoc {
    pub unit: LinearUnit,
    pub surfaces: RawSurfaces,
}

pub type Triples = RawList<Triple>;

pub type Pairs = RawList<Pair2>;

pub type RawVertices = RawList<RawVertex>;

pub type RawLines = RawList<RawLine>;

pub type RawIds = RawList<RawId>;

pub type RawFaces = RawList<RawFace>;

pub type RawSurfaces = RawList<RawSurface>;
