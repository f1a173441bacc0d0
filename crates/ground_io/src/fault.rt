//! The answer of an object that failed, and the count that shows that it did.
ghost use Rattle.std.specs.Prelude.{◌≡◌, ℕ};
ghost use Rattle.ground_io.specs.Causes.{Rises};

use std::error::Error;
use std::fmt;
use std::marker::Model;

/// The object failed: its count of faults rose in the same call.
#[derive(Clone, Copy, Debug, PartialEq, Eq)]
pub struct Failed;

impl fmt::Display for Failed {
    ghost use Rattle.std.specs.Prelude.{Some, codes};

    ghost output = { λ _. Some (codes "the object failed") };

    fn fmt<W: fmt::Write>(&self, f: &mut fmt::Formatter<W>) -> fmt::Result {
        f.write_str("the object failed")
    }
}

impl Error for Failed {}

/// How often an object failed. The count stands still at the end of a `u64`.
#[derive(Drop)]
pub struct FaultCount(u64);

impl Model for FaultCount {
    ghost Value = { ℕ };

    ghost view = { λ c. c.0 };
}

impl FaultCount {
    pub fn new() -> FaultCount
        ensures { result ≡ 0 }
    {
        FaultCount(0)
    }

    /// Counts one fault, and gives the answer of the call that it stands for.
    pub fn rise(&mut self) -> Failed
        ensures { Rises self.old self.new }
    {
        self.0 = self.0.saturating_add(1);
        Failed
    }
}
