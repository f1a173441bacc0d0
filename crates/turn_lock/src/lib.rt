//! A ticket lock over one value, whose seats each know a beginning of the value's journal.
//! It never asks what the entries do, nor how the value is kept.
#![tactic(auto)]

mod filed;
mod journal;
mod lock;
mod open;
mod seat;
mod steps;
mod turn;
mod view;

pub use filed::Filed;
pub use journal::Journal;
pub use lock::TurnLock;
pub use seat::TurnSeat;
pub use turn::Turn;
