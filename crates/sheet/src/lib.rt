//! Sheets: what a maker writes becomes an instrument. A sheet is words of 32 bits; it holds identity, rows, members of sets
//! and held pairs, and makes the pile of hosts.
#![tactic(auto)]

mod body;
mod collisions;
mod draft;
mod entry;
mod kind;
mod opening;
pub mod read;
pub mod refusal;
pub mod sheet;
mod slots;
mod word;

pub use read::read_sheet;
pub use refusal::SheetRefusal;
pub use sheet::Sheet;
