//! Where bytes go, and the call that writes a whole text.
ghost use Rattle.std.specs.Prelude.{◌≡◌, ◌<◌, List, Option, ℕ, length};
ghost use Rattle.std.specs.Io.KnownBytes.{WriteAppends};
ghost use Rattle.ground_io.specs.Causes.{HasCause};
ghost use Rattle.ground_io.specs.Order.{Event, AddsWrite, SendsText};
ghost use Rattle.ground_io.specs.Streams.{Rest, TakesSome, WritesText};

use crate::fault::Failed;

/// A writer that counts its faults. One that takes nothing has failed.
pub trait Sink {
    /// What was written, where it is known.
    ghost written: { Self → Option (List ℕ) };

    /// How often a write failed.
    ghost write_faults: { Self → ℕ };

    /// The calls so far that didn't fail, where their order is known.
    ghost write_order: { Self → Option (List Event) };

    /// What a write never changes.
    ghost beside_writes: { Self → Rest };

    /// Ok takes the first bytes of the piece, at least one. `Failed` leaves what was written.
    fn write(&mut self, piece: &[u8]) -> Result<usize, Failed>
        requires { 0 < length piece.now }
        ensures bound { TakesSome result piece.now }
        ensures bytes { WriteAppends (written self.old) (written self.new) result piece.now }
        ensures order { AddsWrite (write_order self.old) (write_order self.new) result piece.now }
        ensures cause { HasCause (write_faults self.old) (write_faults self.new) result }
        ensures rest { beside_writes self.new ≡ beside_writes self.old };
}

/// Writes the whole text. After `Failed` a beginning of it was written.
pub fn write_all<S: Sink>(sink: &mut S, text: &[u8]) -> Result<(), Failed>
    ensures bytes { WritesText (S.written sink.old) (S.written sink.new) result text.now }
    ensures order { SendsText (S.write_order sink.old) (S.write_order sink.new) result text.now }
    ensures cause { HasCause (S.write_faults sink.old) (S.write_faults sink.new) result }
    ensures rest { S.beside_writes sink.new ≡ S.beside_writes sink.old }
{
    let mut at = 0;
    while at < text.len() {
        at += sink.write(&text[at..])?;
    }
    Ok(())
}
