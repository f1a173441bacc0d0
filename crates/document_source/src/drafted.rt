//! A source's document, drafted.

ghost use Rattle.std.specs.Prelude.{◌≡◌, ◌≢◌, [], Err, All, IfOk};
ghost use Rattle.ground_io.specs.Causes.{Rose};
ghost use Rattle.ground_num.specs.Head.{IsOrigin};
ghost use Rattle.landxml_surface.specs.Drafts.{IsRule};
ghost use Rattle.document_source.specs.declared.fault.SourceFault.TheVariants.{Failed as ReadFailed};
ghost use Rattle.document_source.specs.Feeding.{IsGoing, ReadsWhole};
ghost use Rattle.document_source.specs.Reading.{ReadsDrafts};

use crate::fault::SourceFault;
use crate::feeding::feed_all;
use ground_io::Source;
use landxml_read::{RawDoc, Reader};
use landxml_surface::{Drafts, OriginRule, surfaces};
use std::alloc::Global;

/// The drafts of a document's surfaces, in document order.
#[derive(Drop)]
pub struct Drafted {
    /// How many bytes the document has.
    pub length: u32,
    pub drafts: Drafts,
}

// A document that was read to its end.
#[derive(Drop)]
struct Read {
    length: u32,
    doc: RawDoc,
}

// Reads the document of a source.
fn read_whole<S: Source>(alloc: Global, source: &mut S) -> Result<Read, SourceFault>
    ensures reads { ReadsWhole (S.left source.old) (S.left source.new) result }
    ensures failed { result ≡ Err ReadFailed → Rose (S.read_faults source.old) (S.read_faults source.new) }
    ensures passed { result ≢ Err ReadFailed → S.read_faults source.new ≡ S.read_faults source.old }
    ensures rest { S.beside_reads source.new ≡ S.beside_reads source.old }
{
    let mut reader = Reader::new(alloc);
    let length = feed_all(source, &mut reader)?;
    match reader.finish() {
        Ok(doc) => Ok(Read { length, doc }),
        Err(fault) => Err(SourceFault::of(fault)),
    }
}

/// Reads the document of a source to its end, and drafts its surfaces. It reads in pieces of at most
/// 4,096 bytes and never keeps the text. After a fault the rest of the source isn't read.
/// A given origin is within 2^50 thousandths.
pub fn read_drafts<S: Source>(
    alloc: Global,
    source: &mut S,
    rule: OriginRule,
) -> Result<Drafted, SourceFault>
    requires { IsRule rule }
    ensures reads { ReadsDrafts rule (S.left source.old) (S.left source.new) result }
    ensures origins { IfOk result (λ drafted. All (λ draft. IsOrigin draft.head.origin) drafted.drafts) }
    ensures failed { result ≡ Err ReadFailed → Rose (S.read_faults source.old) (S.read_faults source.new) }
    ensures passed { result ≢ Err ReadFailed → S.read_faults source.new ≡ S.read_faults source.old }
    ensures rest { S.beside_reads source.new ≡ S.beside_reads source.old }
{
    let Read { length, doc } = match read_whole(alloc, source) {
        Ok(read) => read,
        Err(fault) => return Err(fault),
    };
    match surfaces(alloc, doc, rule) {
        Ok(drafts) => Ok(Drafted { length, drafts }),
        Err(fault) => Err(SourceFault::of(fault)),
    }
}
