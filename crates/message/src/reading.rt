//! Reading messages.
ghost use Rattle.std.specs.Prelude.{◌≡◌, ℕ, ◌+◌, ◌*◌, ◌<◌, ◌≤◌, length, take, drop, MatchOption};
ghost use Rattle.message.specs.Codes.{code};
ghost use Rattle.message.specs.Kinds.{other, count_at, kind_at, least, two_lists};
ghost use Rattle.message.specs.Reading.{kind_of, reads, told};
ghost use Rattle.message.specs.Shapes.{Shaped, ShapedReading};

use crate::bytes::all_seven_bits;
use crate::message::{Content, Message};
use crate::pen::LONGEST;
use crate::refusal::Refusal;
use crate::sub_id::SubId;

/// The number that four bytes of seven bits say, lowest first.
// Four bytes and no array: callers have them from a pattern or a slice, and would first make one.
pub fn muid_number(a: u8, b: u8, c: u8, d: u8) -> u32
    ensures { result ≡ a + b * 0x80 + c * 0x4000 + d * 0x200000 }
{
    u32::from(a) + u32::from(b) * 0x80 + u32::from(c) * 0x4000 + u32::from(d) * 0x20_0000
}

/// The counted list of Profile IDs in front and what follows it, unless the bytes end before it does.
fn counted_list(bytes: &[u8]) -> Option<(&[u8], &[u8])>
    ensures { MatchOption result (length bytes.now < 2 + 5 * count_at 0 bytes.now) (λ p. (p.0.now ≡ take (5 * count_at 0 bytes.now) (drop 2 bytes.now)) × (p.1.now ≡ drop (2 + 5 * count_at 0 bytes.now) bytes.now) × (2 + 5 * count_at 0 bytes.now ≤ length bytes.now)) }
{
    let [low, high, rest @ ..] = bytes else {
        return None;
    };
    rest.split_at_checked(5 * (usize::from(*low) + usize::from(*high) * 0x80))
}

/// The two counted lists of Profile IDs of a reply.
fn two_lists(body: &[u8]) -> Option<Content<'_>>
    ensures { MatchOption result (two_lists body.now ≡ other) (λ c. (kind_of c ≡ two_lists body.now) × Shaped (kind_of c)) }
{
    let (on, rest) = counted_list(body)?;
    let (off, _) = counted_list(rest)?;
    Some(Content::ProfileReply { on, off })
}

impl SubId {
    /// The least length of its messages, by their version.
    #[inline(always)]
    fn least_length(self, version: u8) -> usize
        ensures value { result ≡ least (code self) version }
        ensures bound { 15 ≤ result }
    {
        match self {
            SubId::SetProfileOn | SubId::SetProfileOff if version <= 1 => 20,
            SubId::SetProfileOn | SubId::SetProfileOff => 22,
            SubId::Discovery | SubId::ReplyToDiscovery if version <= 1 => 31,
            SubId::Discovery => 32,
            SubId::ReplyToDiscovery => 33,
            SubId::InvalidateMuid => 19,
            _ => 15,
        }
    }
}

/// The least length of a message, by its Sub-ID and version.
pub fn least_length(sub: u8, version: u8) -> usize
    ensures value { result ≡ least sub version }
    ensures bound { 15 ≤ result }
{
    SubId::try_from(sub).map_or(15, |id| id.least_length(version))
}

/// What a message holds, by its Sub-ID, version and body.
fn content(sub: u8, version: u8, body: &[u8]) -> Content<'_>
    ensures value { kind_of result ≡ kind_at sub version body.now }
    ensures shape { Shaped (kind_of result) }
{
    let Ok(id) = SubId::try_from(sub) else {
        return Content::Other;
    };
    if version == 0 || body.len() < id.least_length(version) - 15 {
        return Content::Other;
    }
    match id {
        SubId::ProfileInquiry => Content::ProfileInquiry,
        SubId::ReplyToProfileInquiry => two_lists(body).unwrap_or(Content::Other),
        SubId::SetProfileOn => Content::SetOn(&body[0..5]),
        SubId::SetProfileOff => Content::SetOff(&body[0..5]),
        SubId::ProfileEnabledReport => body.get(0..5).map_or(Content::Other, Content::Enabled),
        SubId::ProfileDisabledReport => body.get(0..5).map_or(Content::Other, Content::Disabled),
        SubId::ProfileAddedReport => body.get(0..5).map_or(Content::Other, Content::Added),
        SubId::ProfileRemovedReport => body.get(0..5).map_or(Content::Other, Content::Removed),
        SubId::Discovery => Content::Discovery(body),
        SubId::ReplyToDiscovery => Content::DiscoveryReply(body),
        SubId::InvalidateMuid => Content::InvalidateMuid(&body[0..4]),
        SubId::Nak => Content::Nak(body),
    }
}

/// A message taken apart, or refusal 2 where the bytes are not framed as one.
pub fn read(message: &[u8]) -> Result<Message<'_>, Refusal>
    ensures value { told result ≡ reads message.now }
    ensures shape { ShapedReading (told result) }
{
    let [
        0xF0,
        0x7E,
        address,
        0x0D,
        sub,
        version,
        s0,
        s1,
        s2,
        s3,
        d0,
        d1,
        d2,
        d3,
        body @ ..,
        0xF7,
    ] = message
    else {
        return Err(Refusal::NotFramed);
    };
    if message.len() > LONGEST || !all_seven_bits(&message[1..message.len() - 1]) {
        return Err(Refusal::NotFramed);
    }
    Ok(Message {
        address: *address,
        sub_id: *sub,
        version: *version,
        source: muid_number(*s0, *s1, *s2, *s3),
        destination: muid_number(*d0, *d1, *d2, *d3),
        content: content(*sub, *version, body),
    })
}
