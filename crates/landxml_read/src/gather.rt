//! What a document's events gather.

ghost use Rattle.std.specs.Prelude.{◌≡◌, IfOk};
ghost use Rattle.ground_num.specs.Names.{IsName};
ghost use Rattle.landxml_read.specs.Lists.{named_unit, ring_kind};
ghost use Rattle.landxml_read.specs.Gather.{nothing, bare, unit_or_meter};

use crate::list::RawList;
use crate::raw::{RawDoc, RawKind, RawLine, RawSurface, RawSurfaces};
use ground_num::{LinearUnit, Name, NameFault, Thousandths};
use std::alloc::{AllocError, Global};

/// A number and the offset of its first byte.
#[derive(Clone, Copy, Debug)]
pub(crate) struct Number {
    pub(crate) at: u64,
    pub(crate) value: Thousandths,
}

/// The numbers of a triple or a pair that is open.
#[derive(Clone, Copy, Debug)]
pub(crate) enum Numbers {
    Zero,
    One(Number),
    Two(Number, Number),
}

/// The ids of a face that is open.
#[derive(Drop)]
pub(crate) enum Ids {
    Zero,
    One(Name),
    Two(Name, Name),
}

/// What was gathered: the first unit, the surfaces that are closed, and what is open.
#[derive(Drop)]
pub(crate) struct Gathered {
    pub(crate) unit: Option<LinearUnit>,
    pub(crate) surfaces: RawSurfaces,
    pub(crate) surface: Option<RawSurface>,
    pub(crate) line: Option<RawLine>,
    /// The offset of the open face's `<`.
    pub(crate) face_at: u64,
    pub(crate) numbers: Numbers,
    pub(crate) ids: Ids,
}

/// The name that the bytes are.
pub(crate) fn name_of(alloc: Global, text: &[u8]) -> Result<Name, AllocError>
    requires { IsName text.now }
    ensures { IfOk result (λ name. name ≡ text.now) }
{
    match Name::from_bytes(alloc, text) {
        Ok(name) => Ok(name),
        Err(NameFault::Memory(fault)) => Err(fault),
        Err(_) => unreachable!(),
    }
}

/// The unit that a value names.
pub(crate) fn unit_named(value: &[u8]) -> LinearUnit
    ensures { result ≡ named_unit value.now }
{
    if value == b"foot".as_slice() {
        LinearUnit::Foot
    } else if value == b"USSurveyFoot".as_slice() {
        LinearUnit::USSurveyFoot
    } else {
        LinearUnit::Meter
    }
}

/// The kind of a boundary.
pub(crate) fn ring_of(value: &[u8]) -> RawKind
    ensures { result ≡ ring_kind value.now }
{
    if value == b"void".as_slice() {
        RawKind::Void
    } else if value == b"island".as_slice() {
        RawKind::Island
    } else {
        RawKind::Outer
    }
}

/// A surface without anything in it.
pub(crate) fn bare_surface(alloc: Global, at: u64, name: Name) -> RawSurface
    ensures { result ≡ bare at name }
{
    RawSurface {
        at,
        name,
        triples: RawList::new(alloc),
        pairs: RawList::new(alloc),
        lines: RawList::new(alloc),
        ids: RawList::new(alloc),
        faces: RawList::new(alloc),
    }
}

impl Gathered {
    /// Nothing, without memory.
    pub(crate) fn new(alloc: Global) -> Gathered
        ensures { result ≡ nothing }
    {
        Gathered {
            unit: None,
            surfaces: RawList::new(alloc),
            surface: None,
            line: None,
            face_at: 0,
            numbers: Numbers::Zero,
            ids: Ids::Zero,
        }
    }
    /// What a document holds, at its end. Takes no memory.
    pub(crate) fn into_doc(self) -> RawDoc
        ensures unit { result.unit ≡ unit_or_meter self.unit }
        ensures surfaces { result.surfaces ≡ self.surfaces }
    {
        RawDoc {
            unit: self.unit.unwrap_or(LinearUnit::Meter),
            surfaces: self.surfaces,
        }
    }
}
