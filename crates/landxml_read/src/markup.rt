//! Whether bytes that come in pieces are a document's, by their encoding and markup.

ghost use Rattle.std.specs.Prelude.{◌≡◌, ◌+◌, ◌<◌, ◌^◌, ◌++◌, [], ℕ, List, length, IfErr, OnOk, IsUtf8, Some, None};
ghost use Rattle.landxml_read.specs.Markup.{IsDocumentText};
ghost use Rattle.landxml_read.specs.Outline.{HasRead, IsShownAt};

use crate::fault::DocFault;
use crate::standing::Standing;

/// A reader of encoding and markup alone: of the causes it finds `Utf8`, `Doctype`, `Syntax` and `Cut`,
/// and each exactly where the whole bytes show it, however they are cut into pieces. It takes no memory.
#[derive(Clone, Copy, Debug)]
pub struct Outline {
    standing: Standing,
    fault: Option<DocFault>,
}

impl Outline {
    /// A reader that has read nothing.
    pub fn new() -> Outline
        ensures read { HasRead [] result }
        ensures nothing { result.standing.offset ≡ 0 }
    {
        Outline {
            standing: Standing::new(),
            fault: None,
        }
    }

    /// Reads the next piece. After a fault every later call answers the same.
    pub fn feed(&mut self, piece: &[u8]) -> Result<(), DocFault>
        requires short { self.old.standing.offset + length piece.now < 2 ^ 32 }
        ensures read { (seen : List ℕ) → HasRead seen self.old → HasRead (seen ++ piece.now) self.new }
        ensures fed { OnOk result (self.new.standing.offset ≡ self.old.standing.offset + length piece.now) }
        ensures ok { OnOk result (self.new.fault ≡ None) }
        ensures fault { IfErr result (λ f. self.new.fault ≡ Some f) }
        ensures same { (f : DocFault) → self.old.fault ≡ Some f → self.new.fault ≡ Some f }
    {
        match self.fault {
            Some(fault) => Err(fault),
            None => match self.standing.feed(piece) {
                Ok(standing) => {
                    self.standing = standing;
                    Ok(())
                }
                Err(fault) => {
                    self.fault = Some(fault);
                    Err(fault)
                }
            },
        }
    }

    /// The end of the bytes: Ok exactly where they are UTF-8 and spell a document.
    pub fn finish(self) -> Result<(), DocFault>
        ensures whole { (seen : List ℕ) → HasRead seen self → OnOk result (IsUtf8 seen × IsDocumentText seen) }
        ensures fault { (seen : List ℕ) → HasRead seen self → IfErr result (λ f. (show : ℕ) × IsShownAt show seen f) }
    {
        match self.fault {
            Some(fault) => Err(fault),
            None => self.standing.finish(),
        }
    }
}
