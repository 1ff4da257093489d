//! Layers over a host. Each is a host itself, so that any pile of them is one.
#![tactic(auto)]

mod entries;
pub mod holding;
pub mod member;
pub mod members;
pub mod pairs;
pub mod sets;

pub use entries::{Entries, MOST_ENTRIES};
pub use holding::Holding;
pub use member::Member;
pub use members::Members;
pub use message::Pair;
pub use pairs::Pairs;
pub use sets::Sets;
