//! Sessions: the lines of a link, answered one after another over one store. It never asks where
//! the bytes come from, nor in which pieces.
#![tactic(auto)]

mod answer;
mod conversation;
mod law;
mod line;
mod queries;
mod session;
mod turns;

pub use answer::put_answer;
pub use conversation::{Ended, converse, talk};
pub use law::transcript_law;
pub use session::{Session, Work, WorkDone, begin_turn, end_turn, needs_turn, own_step, turn_step};
pub use turns::Turns;
