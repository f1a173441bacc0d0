//! The table of points.

ghost use Rattle.std.specs.Prelude.{◌≡◌, ◌↔◌, ◌<◌, ◌≤◌, ◌^◌, ◌⊎◌, None, option_map, slice_get, IsOk, IsSome, IfOk, OnOk, OnErr};
ghost use Rattle.std.specs.FinMap as map;
ghost use Rattle.ground_model.specs.Height.{code};
ghost use Rattle.ground_model.specs.Place.{IsPlace};

use crate::vertex::Vertex;
use ground_model::{Level, Place};
use page_index::PageIndex;
use std::alloc::{AllocError, Global};
use std::marker::Model;

// How many northings an easting is worth in a key.
const GAP: i64 = 2_147_483_648;

/// The points of a surface with their levels, in place order, and for each a slot of a mesh near it. Versions
/// of it share pages: a change copies those on the way to its point that another version holds.
#[derive(Drop)]
pub struct Points {
    index: PageIndex<Vertex>,
}

impl Model for Points {
    ghost use Rattle.std.specs.Prelude.{ℤ};
    ghost use Rattle.std.specs.Coded.{coded_ℤ};
    ghost use Rattle.std.specs.FinMap as finmap;
    ghost use Rattle.ground_model.specs.Place.{place_cmp, coded_coords};
    ghost use Rattle.point_table.specs.Vertices.{levels_by, AreVertices};

    ghost Value = { finmap.FinMap place_cmp ℤ };

    ghost coded = { finmap.code coded_coords coded_ℤ };

    ghost view = { λ t. levels_by t.index };

    ghost invariant = { λ t. AreVertices t.index };
}

// The key of a place: the lesser place has the lesser key.
fn key_of(place: Place) -> u64
    ensures key { result ≡ code place }
    ensures within { IsPlace place }
{
    let e = place.e() as i64 + Place::LIMIT as i64;
    let n = place.n() as i64 + Place::LIMIT as i64;
    (e * GAP + n + 1).unsigned_abs()
}

// The level of a point that was taken out.
fn level_in(vertex: Option<Vertex>) -> Option<Level>
    ensures { result ≡ option_map (λ v. v.1) vertex }
{
    match vertex {
        Some(vertex) => Some(vertex.level),
        None => None,
    }
}

impl Points {
    /// No points. It takes no memory.
    pub fn empty(alloc: Global) -> Points
        ensures { result ≡ map.empty }
    {
        Points {
            index: PageIndex::empty(alloc),
        }
    }

    /// How many points there are.
    pub fn len(&self) -> u32
        ensures len { result ≡ map.len self.now }
        ensures bound { result ≤ 2 ^ 24 }
    {
        self.index.len()
    }

    /// The level of a point, None where there is no such point. Its cost is a search by place, and it takes no
    /// memory.
    pub fn level_of(&self, place: Place) -> Option<Level>
        ensures { result ≡ map.get self.now place }
    {
        match self.index.get(key_of(place)) {
            Some(vertex) => Some(vertex.level),
            None => None,
        }
    }

    /// A slot of a mesh near the point, None where there is no such point. It is what `set` was told last: a hint,
    /// where a walk may begin. It takes no memory.
    pub fn near(&self, place: Place) -> Option<u32>
        ensures { IsSome result ↔ IsSome (map.get self.now place) }
    {
        match self.index.get(key_of(place)) {
            Some(vertex) => Some(vertex.near),
            None => None,
        }
    }

    /// The point that has `k` points before it in place order, with its level. None from their number on. Its cost
    /// is a search by rank, and it takes no memory.
    pub fn at(&self, k: u32) -> Option<(Place, Level)>
        ensures { result ≡ slice_get (map.entries self.now) k }
    {
        match self.index.at(k) {
            Some((_, vertex)) => Some((vertex.place, vertex.level)),
            None => None,
        }
    }

    /// Gives a point this level, and this slot near it; a point that isn't there is added. Its cost is a search by
    /// place, with the pages on the way that others hold.
    pub fn set(&mut self, place: Place, level: Level, near: u32) -> Result<(), AllocError>
        requires room { (map.len self.old < 2 ^ 24) ⊎ IsSome (map.get self.old place) }
        ensures ok { OnOk result (self.new ≡ map.insert self.old place level) }
        ensures err { OnErr result (self.new ≡ self.old) }
    {
        let vertex = Vertex { place, level, near };
        self.index.set(key_of(place), vertex)?;
        Ok(())
    }

    /// Takes a point out. One that isn't there takes no memory.
    pub fn remove(&mut self, place: Place) -> Result<Option<Level>, AllocError>
        ensures level { IfOk result (λ level. level ≡ map.get self.old place) }
        ensures ok { OnOk result (self.new ≡ map.remove self.old place) }
        ensures err { OnErr result (self.new ≡ self.old) }
        ensures absent { map.get self.old place ≡ None → IsOk result }
    {
        Ok(level_in(self.index.remove(key_of(place))?))
    }

    /// Another version of the points, on its pages.
    pub fn share(&self) -> Result<Points, AllocError>
        ensures { IfOk result (λ points. points ≡ self.now) }
    {
        Ok(Points {
            index: self.index.share()?,
        })
    }
}
