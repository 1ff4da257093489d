//! The own device number (MUID) and the list of the other devices.
#![tactic(auto)]

pub mod value;

pub use value::Numbers;
