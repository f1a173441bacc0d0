//! What the path of an element is read as.

ghost use Rattle.std.specs.Prelude.{◌≡◌};
ghost use Rattle.landxml_read.specs.Elements.{below};
ghost use Rattle.landxml_read.specs.Faults.{has_text, read_name};
ghost use Rattle.landxml_read.specs.declared.kind.Kind.TheVariants.{Outside, Root, Units, Surfaces, Surface, SourceData, Boundaries, Breaklines, DataPoints, Definition, Points, Faces};
ghost use Rattle.landxml_read.specs.Events.{is_read_name};

/// The kind of an element.
#[derive(Clone, Copy, Debug, PartialEq, Eq)]
pub(crate) enum Kind {
    /// What holds the root.
    Outside,
    /// `LandXML`.
    Root,
    Units,
    /// `Metric` or `Imperial`.
    UnitOf,
    Surfaces,
    Surface,
    SourceData,
    Boundaries,
    Boundary,
    Breaklines,
    Breakline,
    DataPoints,
    /// `PntList3D`.
    Triples,
    /// `PntList2D`.
    Pairs,
    Definition,
    /// `Pnts`.
    Points,
    /// `P`.
    Point,
    Faces,
    /// `F`.
    Face,
    /// Anything else, and all that it holds.
    Skipped,
}

// What a name makes of an element in the document itself.
fn in_document(name: &[u8]) -> Kind
    ensures { result ≡ below Outside name.now }
{
    if name == b"LandXML".as_slice() {
        Kind::Root
    } else {
        Kind::Skipped
    }
}

// What a name makes of an element in `LandXML`.
fn in_root(name: &[u8]) -> Kind
    ensures { result ≡ below Root name.now }
{
    if name == b"Units".as_slice() {
        Kind::Units
    } else if name == b"Surfaces".as_slice() {
        Kind::Surfaces
    } else {
        Kind::Skipped
    }
}

// What a name makes of an element in `Units`.
fn in_units(name: &[u8]) -> Kind
    ensures { result ≡ below Units name.now }
{
    if name == b"Metric".as_slice() {
        Kind::UnitOf
    } else if name == b"Imperial".as_slice() {
        Kind::UnitOf
    } else {
        Kind::Skipped
    }
}

// What a name makes of an element in `Surfaces`.
fn in_surfaces(name: &[u8]) -> Kind
    ensures { result ≡ below Surfaces name.now }
{
    if name == b"Surface".as_slice() {
        Kind::Surface
    } else {
        Kind::Skipped
    }
}

// What a name makes of an element in a `Surface`.
fn in_surface(name: &[u8]) -> Kind
    ensures { result ≡ below Surface name.now }
{
    if name == b"SourceData".as_slice() {
        Kind::SourceData
    } else if name == b"Definition".as_slice() {
        Kind::Definition
    } else {
        Kind::Skipped
    }
}

// What a name makes of an element in `SourceData`.
fn in_source_data(name: &[u8]) -> Kind
    ensures { result ≡ below SourceData name.now }
{
    if name == b"Boundaries".as_slice() {
        Kind::Boundaries
    } else if name == b"Breaklines".as_slice() {
        Kind::Breaklines
    } else if name == b"DataPoints".as_slice() {
        Kind::DataPoints
    } else {
        Kind::Skipped
    }
}

// What a name makes of an element in `Boundaries`.
fn in_boundaries(name: &[u8]) -> Kind
    ensures { result ≡ below Boundaries name.now }
{
    if name == b"Boundary".as_slice() {
        Kind::Boundary
    } else {
        Kind::Skipped
    }
}

// What a name makes of an element in `Breaklines`.
fn in_breaklines(name: &[u8]) -> Kind
    ensures { result ≡ below Breaklines name.now }
{
    if name == b"Breakline".as_slice() {
        Kind::Breakline
    } else {
        Kind::Skipped
    }
}

// What a name makes of an element in a line or `DataPoints`.
fn in_list(name: &[u8]) -> Kind
    ensures { result ≡ below DataPoints name.now }
{
    if name == b"PntList3D".as_slice() {
        Kind::Triples
    } else if name == b"PntList2D".as_slice() {
        Kind::Pairs
    } else {
        Kind::Skipped
    }
}

// What a name makes of an element in a `Definition`.
fn in_definition(name: &[u8]) -> Kind
    ensures { result ≡ below Definition name.now }
{
    if name == b"Pnts".as_slice() {
        Kind::Points
    } else if name == b"Faces".as_slice() {
        Kind::Faces
    } else {
        Kind::Skipped
    }
}

// What a name makes of an element in `Pnts`.
fn in_points(name: &[u8]) -> Kind
    ensures { result ≡ below Points name.now }
{
    if name == b"P".as_slice() {
        Kind::Point
    } else {
        Kind::Skipped
    }
}

// What a name makes of an element in `Faces`.
fn in_faces(name: &[u8]) -> Kind
    ensures { result ≡ below Faces name.now }
{
    if name == b"F".as_slice() {
        Kind::Face
    } else {
        Kind::Skipped
    }
}

impl Kind {
    /// What a name makes of an element in one of this kind.
    pub(crate) fn below(self, name: &[u8]) -> Kind
        ensures { result ≡ below self name.now }
    {
        match self {
            Kind::Outside => in_document(name),
            Kind::Root => in_root(name),
            Kind::Units => in_units(name),
            Kind::Surfaces => in_surfaces(name),
            Kind::Surface => in_surface(name),
            Kind::SourceData => in_source_data(name),
            Kind::Boundaries => in_boundaries(name),
            Kind::Breaklines => in_breaklines(name),
            Kind::Boundary | Kind::Breakline | Kind::DataPoints => in_list(name),
            Kind::Definition => in_definition(name),
            Kind::Points => in_points(name),
            Kind::Faces => in_faces(name),
            Kind::Triples | Kind::Pairs | Kind::UnitOf | Kind::Point | Kind::Face | Kind::Skipped =>
                Kind::Skipped,
        }
    }

    /// Whether the text of the element is read.
    pub(crate) fn has_text(self) -> bool
        ensures { result ≡ has_text self }
    {
        matches!(self, Kind::Triples | Kind::Pairs | Kind::Point | Kind::Face)
    }

    /// Whether the attribute is the one that is read of the element.
    pub(crate) fn reads(self, attribute: &[u8]) -> bool
        ensures { result ≡ is_read_name (read_name self) attribute.now }
    {
        match self {
            Kind::UnitOf => attribute == b"linearUnit".as_slice(),
            Kind::Surface => attribute == b"name".as_slice(),
            Kind::Boundary => attribute == b"bndType".as_slice(),
            Kind::Breakline => attribute == b"brkType".as_slice(),
            Kind::Definition => attribute == b"surfType".as_slice(),
            Kind::Point => attribute == b"id".as_slice(),
            _ => false,
        }
    }
}
