//! Names of messages and meanings of statuses.
//! They are the whole standard's, matched by byte: `SubId` and `NakStatus` have only the 12 of 40 messages and the 4 of 11 statuses that this
//! product reads or writes, and enums of all would be no plainer, since they only add a match from bytes to cases.

/// The name of a message of MIDI-CI 1.2 by its Sub-ID, unless the Sub-ID is reserved.
pub(crate) fn message_name(sub_id: u8) -> Option<&'static str> {
    match sub_id {
        0x10..=0x1F => protocol_name(sub_id),
        0x20..=0x2F => profile_name(sub_id),
        0x30..=0x3F => property_name(sub_id),
        0x40..=0x4F => process_name(sub_id),
        _ => management_name(sub_id),
    }
}

/// Protocol Negotiation, which version 1.2 no longer has.
fn protocol_name(sub_id: u8) -> Option<&'static str> {
    match sub_id {
        0x10 => Some("Initiate Protocol Negotiation"),
        0x11 => Some("Reply to Initiate Protocol Negotiation"),
        0x12 => Some("Set New Selected Protocol"),
        0x13 => Some("Test New Protocol Initiator to Responder"),
        0x14 => Some("Test New Protocol Responder to Initiator"),
        0x15 => Some("Confirmation Protocol Established"),
        _ => None,
    }
}

/// Profile Configuration.
fn profile_name(sub_id: u8) -> Option<&'static str> {
    match sub_id {
        0x20 => Some("Profile Inquiry"),
        0x21 => Some("Reply to Profile Inquiry"),
        0x22 => Some("Set Profile On"),
        0x23 => Some("Set Profile Off"),
        0x24 => Some("Profile Enabled Report"),
        0x25 => Some("Profile Disabled Report"),
        0x26 => Some("Profile Added Report"),
        0x27 => Some("Profile Removed Report"),
        0x28 => Some("Profile Details Inquiry"),
        0x29 => Some("Reply to Profile Details Inquiry"),
        0x2F => Some("Profile Specific Data"),
        _ => None,
    }
}

/// Property Exchange.
fn property_name(sub_id: u8) -> Option<&'static str> {
    match sub_id {
        0x30 => Some("Inquiry: Property Exchange Capabilities"),
        0x31 => Some("Reply to Property Exchange Capabilities"),
        0x32 => Some("Inquiry: Has Property Data"),
        0x33 => Some("Reply to Has Property Data"),
        0x34 => Some("Inquiry: Get Property Data"),
        0x35 => Some("Reply to Get Property Data"),
        0x36 => Some("Inquiry: Set Property Data"),
        0x37 => Some("Reply to Set Property Data"),
        0x38 => Some("Subscription"),
        0x39 => Some("Reply to Subscription"),
        0x3F => Some("Notify"),
        _ => None,
    }
}

/// Process Inquiry.
fn process_name(sub_id: u8) -> Option<&'static str> {
    match sub_id {
        0x40 => Some("Inquiry: Process Inquiry Capabilities"),
        0x41 => Some("Reply to Process Inquiry Capabilities"),
        0x42 => Some("Inquiry: MIDI Message Report"),
        0x43 => Some("Reply to MIDI Message Report"),
        0x44 => Some("End of MIDI Message Report"),
        _ => None,
    }
}

/// Management.
fn management_name(sub_id: u8) -> Option<&'static str> {
    match sub_id {
        0x70 => Some("Discovery"),
        0x71 => Some("Reply to Discovery"),
        0x72 => Some("Inquiry: Endpoint Information"),
        0x73 => Some("Reply to Endpoint Information"),
        0x7D => Some("MIDI-CI ACK"),
        0x7E => Some("Invalidate MUID"),
        0x7F => Some("MIDI-CI NAK"),
        _ => None,
    }
}

/// What the status of a NAK means.
pub(crate) fn status_meaning(status: u8) -> &'static str {
    match status {
        0x00 => "no reason given",
        0x01 => "message not supported",
        0x02 => "MIDI-CI version not supported",
        0x03 => "address not in use",
        0x04 => "profile not supported at this address",
        0x20 => "inquiry terminated",
        0x21 => "Property Exchange chunks out of sequence",
        0x40 => "error, please retry",
        0x41 => "message malformed",
        0x42 => "timeout",
        0x43 => "busy, try again later",
        _ => "reserved",
    }
}
