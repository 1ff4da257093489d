//! Sub-IDs of messages and statuses of NAKs, each with its number.
ghost use Rattle.std.specs.Prelude.{◌≡◌};
ghost use Rattle.message.specs.Codes.{code, status_code, Decodes};

/// The messages that are read or written, by their Sub-ID.
#[derive(Clone, Copy)]
pub enum SubId {
    ProfileInquiry = 0x20,
    ReplyToProfileInquiry = 0x21,
    SetProfileOn = 0x22,
    SetProfileOff = 0x23,
    ProfileEnabledReport = 0x24,
    ProfileDisabledReport = 0x25,
    ProfileAddedReport = 0x26,
    ProfileRemovedReport = 0x27,
    Discovery = 0x70,
    ReplyToDiscovery = 0x71,
    InvalidateMuid = 0x7E,
    Nak = 0x7F,
}

impl SubId {
    /// The byte that stands for it in a message.
    // No `From` for `u8`: `u8::from(id)` is no plainer than `id.byte()`.
    pub fn byte(self) -> u8
        ensures { result ≡ code self }
    {
        self as u8
    }
}

/// A byte that is the Sub-ID of no message that is read or written.
#[derive(Clone, Copy)]
pub struct UnknownSubId(pub u8);

// `TryFrom`, as a byte stands for a case here; an address, a Profile ID and a MUID hold what they are made of, and have `new`.
impl TryFrom<u8> for SubId {
    type Error = UnknownSubId;

    ghost try_from_gives = { Decodes };

    // A hint: a match on the cases is then one on the bytes.
    #[inline(always)]
    fn try_from(byte: u8) -> Result<SubId, UnknownSubId> {
        match byte {
            0x20 => Ok(SubId::ProfileInquiry),
            0x21 => Ok(SubId::ReplyToProfileInquiry),
            0x22 => Ok(SubId::SetProfileOn),
            0x23 => Ok(SubId::SetProfileOff),
            0x24 => Ok(SubId::ProfileEnabledReport),
            0x25 => Ok(SubId::ProfileDisabledReport),
            0x26 => Ok(SubId::ProfileAddedReport),
            0x27 => Ok(SubId::ProfileRemovedReport),
            0x70 => Ok(SubId::Discovery),
            0x71 => Ok(SubId::ReplyToDiscovery),
            0x7E => Ok(SubId::InvalidateMuid),
            0x7F => Ok(SubId::Nak),
            _ => Err(UnknownSubId(byte)),
        }
    }
}

/// Why an inquiry is answered by a NAK.
#[derive(Clone, Copy)]
pub enum NakStatus {
    NotSupported = 0x01,
    WrongVersion = 0x02,
    NoSuchProfile = 0x04,
    Malformed = 0x41,
}

impl NakStatus {
    /// The byte that stands for it in a NAK.
    // No `From` for `u8`: `u8::from(status)` is no plainer than `status.byte()`.
    pub fn byte(self) -> u8
        ensures { result ≡ status_code self }
    {
        self as u8
    }
}
