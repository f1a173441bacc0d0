//! Where bytes come from.
ghost use Rattle.std.specs.Prelude.{◌≡◌, ◌<◌, List, Option, ℕ, length};
ghost use Rattle.std.specs.Io.{ReadsAtMost};
ghost use Rattle.std.specs.Io.KnownBytes.{ReadConsumes};
ghost use Rattle.ground_io.specs.Causes.{HasCause};
ghost use Rattle.ground_io.specs.Order.{Event, AddsRead};
ghost use Rattle.ground_io.specs.Streams.{Rest};

use crate::fault::Failed;

/// A reader that counts its faults.
pub trait Source {
    /// The bytes that reads will give from here on, where they are known.
    ghost left: { Self → Option (List ℕ) };

    /// How often a read failed.
    ghost read_faults: { Self → ℕ };

    /// The calls so far that didn't fail, where their order is known.
    ghost read_order: { Self → Option (List Event) };

    /// What a read never changes.
    ghost beside_reads: { Self → Rest };

    /// Ok gives the next bytes, and Ok(0) is the end of the input. `Failed` leaves what is left.
    fn read(&mut self, into: &mut [u8]) -> Result<usize, Failed>
        requires { 0 < length into.old }
        ensures bound { ReadsAtMost result into.new }
        ensures bytes { ReadConsumes (left self.old) (left self.new) result into.new }
        ensures order { AddsRead (read_order self.old) (read_order self.new) result into.new }
        ensures cause { HasCause (read_faults self.old) (read_faults self.new) result }
        ensures rest { beside_reads self.new ≡ beside_reads self.old };
}
