//! The line protocol: what a line asks, and what is written for a reply.
//! It never asks what a surface is, nor where lines come from.
#![tactic(auto)]

mod fault;
mod figure;
mod law;
mod line_edit;
mod number;
mod place;
mod place_text;
mod put;
mod read;
mod reason_text;
mod reply;
mod request;
mod text;
mod volume_text;
mod words;

pub use law::grammar_law;
pub use number::read_number;
pub use put::put_reply;
pub use read::{LineFault, read_request};
pub use reason_text::add_reason;
pub use reply::Reply;
pub use request::Request;
pub use text::Text;
