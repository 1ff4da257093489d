//! The responder: start, announce and take, over any host.
#![tactic(auto)]

mod action;
mod calls;
mod deciding;
mod listing;
mod replying;
mod reporting;
pub mod responder;
mod sending;

pub use responder::Responder;
