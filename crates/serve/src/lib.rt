//! The server's sessions: each over a link and at one desk, side by side. It never asks what a
//! request is, nor where links come from.
#![tactic(auto)]

mod at_desk;
mod gate;
mod served;
mod surface;
mod worker;

pub use gate::{Gate, OpenGate};
pub use served::serve_session;
pub use surface::serve_surface;
pub use worker::{Worker, serve_all};
