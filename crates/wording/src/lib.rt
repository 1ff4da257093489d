//! Messages of MIDI-CI in words that a support engineer reads.
#![tactic(auto)]

mod holds;
mod names;
mod parts;
pub mod words;

pub use parts::{Hex, Place};
pub use words::Words;
