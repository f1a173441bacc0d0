//! A connection: a source and a sink in one.
ghost use Rattle.std.specs.Prelude.{◌≡◌, List, ℕ};

use crate::sink::Sink;
use crate::source::Source;

/// A source and a sink in one, of which a call on one side keeps the other.
pub trait Link: Source + Sink {
    /// The references that the link holds, which no call changes.
    ghost names: { Self → List ℕ };

    /// A read keeps what was written, the count of failed writes and the references.
    ghost reads_keep: { (l : Self) → Self.beside_reads l ≡ record { known = Self.written l; faults = Self.write_faults l; names = names l } };

    /// A write keeps what is left, the count of failed reads and the references.
    ghost writes_keep: { (l : Self) → Self.beside_writes l ≡ record { known = Self.left l; faults = Self.read_faults l; names = names l } };

    /// Reads and writes stand in one order.
    ghost one_order: { (l : Self) → Self.read_order l ≡ Self.write_order l };
}
