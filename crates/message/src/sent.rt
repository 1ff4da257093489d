//! The messages that are sent, but for the reply to a listing inquiry, which is written over rows.
use crate::address::Address;
use crate::identity::Identity;
use crate::muid::Muid;
use crate::profile_id::ProfileId;
use crate::sub_id::NakStatus;

/// A message to send.
// `address` and `id` stand apart: but for one arm, whoever writes a message takes one of them alone.
#[derive(Clone, Copy)]
pub enum Sent {
    /// To every device, with Output Path Id 00h.
    Discovery {
        identity: Identity,
    },
    /// To the asker, with the asker's Output Path Id.
    DiscoveryReply {
        to: Muid,
        identity: Identity,
        path: u8,
    },
    InvalidateMuid {
        target: Muid,
    },
    Enabled {
        address: Address,
        id: ProfileId,
    },
    Disabled {
        address: Address,
        id: ProfileId,
    },
    Added {
        address: Address,
        id: ProfileId,
    },
    Removed {
        address: Address,
        id: ProfileId,
    },
    /// To the asker, with the Sub-ID of its inquiry, a byte since it may be one that is not known here.
    Nak {
        to: Muid,
        address: Address,
        sub_id: u8,
        status: NakStatus,
    },
}
