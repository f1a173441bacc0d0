//! How what a document shows is gathered: a tag, a word, an end.

ghost use Rattle.std.specs.Prelude.{◌≡◌, ◌+◌, ◌<◌, ◌^◌, ◌∷◌, [], length, OnOk, Some, None, true};
ghost use Rattle.ground_num.specs.Names.{IsName};
ghost use Rattle.landxml_read.specs.Numbers.{number_cause};
ghost use Rattle.landxml_read.specs.Faults.{has_numbers};
ghost use Rattle.landxml_read.specs.Gather.{triples_in, pairs_in, put_id, put_line, put_surface, opened, with_vertices, with_triple, with_pair, to_triple, to_pair, to_face, with_text, closed};

use crate::gather::{Gathered, Ids, Number, Numbers, bare_surface, name_of, ring_of, unit_named};
use crate::kind::Kind;
use crate::list::RawList;
use crate::number::number_of;
use crate::raw::{Pair2, RawFace, RawId, RawKind, RawLine, RawVertex, Triple};
use ground_num::Name;
use std::alloc::{AllocError, Global};
use std::mem::replace;

impl Gathered {
    // One more vertex of the open line, where one is open.
    fn put_vertex(&mut self, vertex: RawVertex) -> Result<(), AllocError>
        ensures { OnOk result (self.new ≡ record self.old { line = with_vertices (vertex ∷ []) self.old.line }) }
    {
        if let Some(line) = &mut self.line {
            line.vertices.push(vertex)?;
        }
        Ok(())
    }

    // How many triples the open surface has.
    fn count_triples(&self) -> usize
        ensures { result ≡ length (triples_in self.now.surface) }
    {
        match &self.surface {
            Some(surface) => surface.triples.len(),
            None => 0,
        }
    }

    // How many pairs the open surface has.
    fn count_pairs(&self) -> usize
        ensures { result ≡ length (pairs_in self.now.surface) }
    {
        match &self.surface {
            Some(surface) => surface.pairs.len(),
            None => 0,
        }
    }

    // The triple of three numbers.
    fn put_triple(&mut self, a: Number, b: Number, c: Number) -> Result<(), AllocError>
        ensures { length (triples_in self.old.surface) < 2 ^ 32 → OnOk result (self.new ≡ with_triple a b c self.old) }
    {
        self.numbers = Numbers::Zero;
        let index = u32::try_from(self.count_triples()).unwrap_or(u32::MAX);
        self.put_vertex(RawVertex::Triple(index))?;
        if let Some(surface) = &mut self.surface {
            surface.triples.push(Triple {
                n: a.value,
                e: b.value,
                z: c.value,
                n_at: a.at,
                e_at: b.at,
                z_at: c.at,
            })?;
        }
        Ok(())
    }

    // The pair of two numbers.
    fn put_pair(&mut self, a: Number, b: Number) -> Result<(), AllocError>
        ensures { length (pairs_in self.old.surface) < 2 ^ 32 → OnOk result (self.new ≡ with_pair a b self.old) }
    {
        self.numbers = Numbers::Zero;
        let index = u32::try_from(self.count_pairs()).unwrap_or(u32::MAX);
        self.put_vertex(RawVertex::Pair(index))?;
        if let Some(surface) = &mut self.surface {
            surface.pairs.push(Pair2 {
                n: a.value,
                e: b.value,
                at: a.at,
            })?;
        }
        Ok(())
    }

    // One more number of a triple.
    fn to_triple(&mut self, x: Number) -> Result<(), AllocError>
        ensures { length (triples_in self.old.surface) < 2 ^ 32 → OnOk result (self.new ≡ to_triple self.old.numbers x self.old) }
    {
        match self.numbers {
            Numbers::Zero => {
                self.numbers = Numbers::One(x);
                Ok(())
            }
            Numbers::One(a) => {
                self.numbers = Numbers::Two(a, x);
                Ok(())
            }
            Numbers::Two(a, b) => self.put_triple(a, b, x),
        }
    }

    // One more number of a pair.
    fn to_pair(&mut self, x: Number) -> Result<(), AllocError>
        ensures { length (pairs_in self.old.surface) < 2 ^ 32 → OnOk result (self.new ≡ to_pair self.old.numbers x self.old) }
    {
        match self.numbers {
            Numbers::Zero => {
                self.numbers = Numbers::One(x);
                Ok(())
            }
            Numbers::One(a) => self.put_pair(a, x),
            Numbers::Two(_, _) => Ok(()),
        }
    }

    // One more id of a face.
    fn to_face(&mut self, id: Name) -> Result<(), AllocError>
        ensures { OnOk result (self.new ≡ to_face self.old.ids id self.old) }
    {
        match replace(&mut self.ids, Ids::Zero) {
            Ids::Zero => {
                self.ids = Ids::One(id);
                Ok(())
            }
            Ids::One(a) => {
                self.ids = Ids::Two(a, id);
                Ok(())
            }
            Ids::Two(a, b) => {
                let at = self.face_at;
                if let Some(surface) = &mut self.surface {
                    surface.faces.push(RawFace { at, a, b, c: id })?;
                }
                Ok(())
            }
        }
    }

    // One more id of a point.
    fn put_id(&mut self, at: u64, id: Name) -> Result<(), AllocError>
        ensures { length (triples_in self.old.surface) < 2 ^ 32 → OnOk result (self.new ≡ record self.old { surface = put_id at id self.old.surface }) }
    {
        let triple = u32::try_from(self.count_triples()).unwrap_or(u32::MAX);
        if let Some(surface) = &mut self.surface {
            surface.ids.push(RawId { at, id, triple })?;
        }
        Ok(())
    }

    // The end of a line.
    fn close_line(&mut self) -> Result<(), AllocError>
        ensures { OnOk result (self.new ≡ record self.old { surface = put_line self.old.line self.old.surface; line = None }) }
    {
        if let Some(line) = self.line.take() {
            if let Some(surface) = &mut self.surface {
                surface.lines.push(line)?;
            }
        }
        Ok(())
    }

    // The end of a surface.
    fn close_surface(&mut self) -> Result<(), AllocError>
        ensures { OnOk result (self.new ≡ record self.old { surfaces = put_surface self.old.surface self.old.surfaces; surface = None }) }
    {
        if let Some(surface) = self.surface.take() {
            self.surfaces.push(surface)?;
        }
        Ok(())
    }

    // A line begins.
    fn open_line(&mut self, alloc: Global, at: u64, kind: RawKind)
        ensures { self.new ≡ record self.old { line = Some (record { at = at; kind = kind; vertices = [] }) } }
    {
        self.line = Some(RawLine {
            at,
            kind,
            vertices: RawList::new(alloc),
        });
    }

    /// The tag of an element of a kind at an offset, with the value of its read attribute, or none.
    pub(crate) fn open(
        &mut self,
        alloc: Global,
        kind: Kind,
        at: u64,
        value: &[u8],
    ) -> Result<(), AllocError>
        requires name { IsName value.now }
        ensures { length (triples_in self.old.surface) < 2 ^ 32 → OnOk result (self.new ≡ opened kind at value.now self.old) }
    {
        match kind {
            Kind::UnitOf => {
                if self.unit.is_none() {
                    self.unit = Some(unit_named(value));
                }
                Ok(())
            }
            Kind::Surface => {
                let name = name_of(alloc, value)?;
                self.surface = Some(bare_surface(alloc, at, name));
                Ok(())
            }
            Kind::Boundary => {
                self.open_line(alloc, at, ring_of(value));
                Ok(())
            }
            Kind::Breakline => {
                self.open_line(alloc, at, RawKind::Breakline);
                Ok(())
            }
            Kind::Point => {
                let id = name_of(alloc, value)?;
                self.put_id(at, id)
            }
            Kind::Face => {
                self.face_at = at;
                Ok(())
            }
            _ => Ok(()),
        }
    }

    /// One more word of an element of a kind, at an offset.
    pub(crate) fn read(
        &mut self,
        alloc: Global,
        kind: Kind,
        at: u64,
        word: &[u8],
    ) -> Result<(), AllocError>
        requires number { has_numbers kind ≡ true → number_cause word.now ≡ None }
        requires id { IsName word.now }
        ensures { length (triples_in self.old.surface) < 2 ^ 32 → length (pairs_in self.old.surface) < 2 ^ 32 → OnOk result (self.new ≡ with_text kind (record { at = at; text = word.now }) self.old) }
    {
        match kind {
            Kind::Triples | Kind::Point => {
                let value = number_of(word);
                self.to_triple(Number { at, value })
            }
            Kind::Pairs => {
                let value = number_of(word);
                self.to_pair(Number { at, value })
            }
            Kind::Face => {
                let id = name_of(alloc, word)?;
                self.to_face(id)
            }
            _ => Ok(()),
        }
    }

    /// The end of an element of a kind.
    pub(crate) fn close(&mut self, kind: Kind) -> Result<(), AllocError>
        ensures { OnOk result (self.new ≡ closed kind self.old) }
    {
        match kind {
            Kind::Triples | Kind::Pairs | Kind::Point => {
                self.numbers = Numbers::Zero;
                Ok(())
            }
            Kind::Face => {
                self.face_at = 0;
                self.ids = Ids::Zero;
                Ok(())
            }
            Kind::Boundary | Kind::Breakline => self.close_line(),
            Kind::Surface => self.close_surface(),
            _ => Ok(()),
        }
    }
}
