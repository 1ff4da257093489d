//! Messages taken apart: each part is lent from the bytes that were read.

/// What a message holds, by its Sub-ID.
// Slices and no arrays: arrays would ask more of whoever builds a `Message` to have it told in words. By a rule read messages are an
// enum that borrows from the input; `Other` is a case of it, as an `Option` around it would only be matched twice.
#[derive(Clone, Copy)]
pub enum Content<'a> {
    /// The whole body: 11 identity bytes, what is supported, the largest message, and from version 2 on the Output Path Id.
    Discovery(&'a [u8]),
    /// The whole body: as of a Discovery, and from version 2 on the Function Block.
    DiscoveryReply(&'a [u8]),
    /// The four bytes of the MUID that is no longer valid.
    InvalidateMuid(&'a [u8]),
    ProfileInquiry,
    /// The Profile IDs that are on and those that are off, five bytes each.
    ProfileReply { on: &'a [u8], off: &'a [u8] },
    /// The five bytes of a Profile ID, here and in the five that follow.
    SetOn(&'a [u8]),
    SetOff(&'a [u8]),
    Enabled(&'a [u8]),
    Disabled(&'a [u8]),
    Added(&'a [u8]),
    Removed(&'a [u8]),
    /// The whole body: from version 2 on the Sub-ID of the inquiry, the status, and more.
    Nak(&'a [u8]),
    /// Any other Sub-ID, version 0, or a body too short for what it is to hold.
    Other,
}

/// A framed message. The first three fields are below 80h, and the MUIDs have 28 bits.
// Plain numbers: narrower types would ask more of whoever builds a `Message` to have it told in words.
#[derive(Clone, Copy)]
pub struct Message<'a> {
    pub address: u8,
    pub sub_id: u8,
    pub version: u8,
    pub source: u32,
    pub destination: u32,
    pub content: Content<'a>,
}
