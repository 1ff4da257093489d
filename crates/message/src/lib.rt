//! Messages of MIDI Capability Inquiry: what they are made of, how they are read and how they are written.
#![tactic(auto)]

pub mod address;
pub mod bytes;
mod head;
pub mod identity;
pub mod laws;
pub mod listing;
pub mod message;
pub mod muid;
pub mod pair;
pub mod pen;
pub mod profile_id;
pub mod reading;
pub mod refusal;
pub mod row;
pub mod sent;
pub mod sub_id;
pub mod writing;

pub use address::Address;
pub use bytes::all_seven_bits;
pub use identity::Identity;
pub use listing::{count_rows, put_profile_reply, write_profile_reply};
pub use message::{Content, Message};
pub use muid::Muid;
pub use pair::Pair;
pub use pen::{LONGEST, Pen};
pub use profile_id::ProfileId;
pub use reading::{least_length, muid_number, read};
pub use refusal::Refusal;
pub use row::Row;
pub use sent::Sent;
pub use sub_id::{NakStatus, SubId, UnknownSubId};
pub use writing::write;
