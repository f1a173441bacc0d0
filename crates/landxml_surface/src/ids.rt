//! The ids of a surface's points.

ghost use Rattle.std.specs.Prelude.{◌≡◌, ◌++◌, ◌∷◌, [], List, ℕ, not, bytes_eq, IfOk};
ghost use Rattle.indexmap.specs.IndexMap.{get_by};
ghost use Rattle.landxml_read.specs.declared.raw.RawId.{RawId as AnId};
ghost use Rattle.landxml_surface.specs.Faults.{id_faults, least_of, when};
ghost use Rattle.landxml_read.specs.declared.fault.DocCause.TheVariants.{Id};
ghost use Rattle.landxml_surface.specs.Ids.{is_id, AreIds};

use crate::fault::{earlier, fault_if};
use indexmap::IndexMap;
use landxml_read::{DocCause, DocFault, RawId};
use std::alloc::{AllocError, Global};

/// The triple of each id, that of its first `P`.
#[derive(Drop)]
pub(crate) struct Ids<'a> {
    pub(crate) triples: IndexMap<&'a [u8], u32>,
}

impl<'a> Ids<'a> {
    // No id.
    fn new(alloc: Global) -> Self
        ensures { AreIds [] (λ name. get_by (λ k. bytes_eq name k.now) result.triples) }
    {
        Ids {
            triples: IndexMap::new(alloc),
        }
    }

    /// The triple of the id with these bytes.
    pub(crate) fn triple(&self, name: &[u8]) -> Option<u32>
        ensures { result ≡ get_by (λ k. bytes_eq name.now k.now) self.now.triples }
    {
        self.triples.get(name).copied()
    }

    // One id more: whether it is new.
    fn note(&mut self, id: &'a RawId) -> Result<bool, AllocError>
        ensures { (ids : List AnId) → AreIds ids (λ name. get_by (λ k. bytes_eq name k.now) self.old.triples) → IfOk result (λ new. (new ≡ not (is_id ids id.now.id)) × AreIds (ids ++ id.now ∷ []) (λ name. get_by (λ k. bytes_eq name k.now) self.new.triples)) }
    {
        let name = id.id.as_bytes();
        match self.triple(name) {
            Some(_) => Ok(false),
            None => match self.triples.insert(name, id.triple) {
                Ok(_) => Ok(true),
                Err(_) => Err(AllocError),
            },
        }
    }
}

// The fault of an id that an earlier one is.
fn id_fault(is_new: bool, at: u64) -> Option<DocFault>
    ensures { result ≡ least_of (when (not is_new) at Id) }
{
    fault_if(!is_new, at, DocCause::Id)
}

/// The ids, and their least fault: one that an earlier one is.
pub(crate) fn gather_ids(
    alloc: Global,
    ids: &[RawId],
) -> Result<(Ids<'_>, Option<DocFault>), AllocError>
    ensures { IfOk result (λ r. AreIds ids.now (λ name. get_by (λ k. bytes_eq name k.now) r.0.triples) × (r.1 ≡ least_of (id_faults [] ids.now))) }
{
    let mut gathered = Ids::new(alloc);
    let mut least = None;
    for id in ids {
        let is_new = gathered.note(id)?;
        least = earlier(least, id_fault(is_new, id.at));
    }
    Ok((gathered, least))
}
