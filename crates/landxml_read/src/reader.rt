//! Documents, read from bytes that come in pieces.

ghost use Rattle.std.specs.Option.{ForNone};
ghost use Rattle.landxml_read.specs.Known.{IsKnown};

use crate::course::Course;
use crate::fault::ReadFault;
use crate::raw::RawDoc;
use std::alloc::Global;

/// A reader of documents, of which it keeps what they hold, one open tag, one open word and the open elements.
/// Of the causes it finds all but those that numbers, ids and faces have among each other.
#[derive(Drop)]
pub struct Reader {
    course: Course,
    ended: Option<ReadFault>,
    ghost known: { ForNone ended (IsKnown course.standing course.tokens course.gathered) },
}

impl Reader {
    ghost use Rattle.std.specs.Prelude.{◌≡◌, ◌+◌, ◌<◌, ◌^◌, ◌++◌, [], ℕ, List, length, IfErr, IfOk, OnOk, Some, None, Err};
    ghost use Rattle.landxml_read.specs.declared.fault.ReadFault.TheVariants.{Memory};
    ghost use Rattle.landxml_read.specs.Markup.{Document};
    ghost use Rattle.landxml_read.specs.Answer.{IsTreeOf};
    ghost use Rattle.landxml_read.specs.Lawful.{IsLawful};
    ghost use Rattle.landxml_read.specs.Reader.{fed, HasReadAll, IsRead, IsEndOf};

    /// A reader that has read nothing. Takes no memory.
    pub fn new(alloc: Global) -> Reader
        ensures read { HasReadAll [] result }
        ensures nothing { fed result ≡ 0 }
    {
        Reader {
            course: Course::new(alloc),
            ended: None,
        }
    }

    /// Reads the next piece. After a fault every later call answers the same.
    pub fn feed(&mut self, piece: &[u8]) -> Result<(), ReadFault>
        requires short { ForNone self.old.ended (fed self.old + length piece.now < 2 ^ 32) }
        ensures read { (seen : List ℕ) → HasReadAll seen self.old → HasReadAll (seen ++ piece.now) self.new }
        ensures more { OnOk result (fed self.new ≡ fed self.old + length piece.now) }
        ensures ok { OnOk result (self.new.ended ≡ None) }
        ensures fault { IfErr result (λ e. self.new.ended ≡ Some e) }
        ensures same { (e : ReadFault) → self.old.ended ≡ Some e → self.new.ended ≡ Some e }
    {
        match self.ended {
            Some(fault) => Err(fault),
            None => match self.course.read(piece) {
                Ok(()) => Ok(()),
                Err(fault) => {
                    self.ended = Some(fault);
                    Err(fault)
                }
            },
        }
    }

    /// The end of the bytes: what they hold exactly where they are UTF-8 and spell a document without a fault.
    /// Takes no memory.
    pub fn finish(self) -> Result<RawDoc, ReadFault>
        ensures whole { (seen : List ℕ) → HasReadAll seen self → IfOk result (λ doc. IsRead seen doc) }
        ensures lawful { (seen : List ℕ) → HasReadAll seen self → IfOk result (λ doc. IsLawful doc) }
        ensures fault { (seen : List ℕ) → HasReadAll seen self → IfErr result (λ e. IsEndOf seen e) }
        ensures answered { (seen : List ℕ) (d : Document) → HasReadAll seen self → IsTreeOf seen d → IfErr result (λ e. e ≡ Memory) }
        ensures same { (e : ReadFault) → self.ended ≡ Some e → result ≡ Err e }
        ensures memory { result ≡ Err Memory → self.ended ≡ Some Memory }
    {
        match self.ended {
            Some(fault) => Err(fault),
            None => match self.course.standing.finish() {
                Ok(()) => Ok(self.course.into_doc()),
                Err(fault) => Err(ReadFault::Doc(fault)),
            },
        }
    }
}
