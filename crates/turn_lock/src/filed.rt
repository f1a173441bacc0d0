//! What may lie under the lock.

ghost use Rattle.std.specs.Prelude.{◌≡◌, length};

/// A value with a journal that only grows at its end.
pub trait Filed {
    ghost use Rattle.turn_lock.specs.declared.journal.Journal.{Journal};

    /// Its head, its limits and its entries.
    ghost journal: { Self → Journal };

    /// How many entries the journal has.
    fn filed(&self) -> u32
        ensures count { result ≡ length (journal self.now).entries };
}
