//! What a message holds, in words.
use crate::names::status_meaning;
use crate::parts::{Device, Hex, Ids, Kind};
use message::{Content, Message, SubId, muid_number};
use std::fmt;

/// What a message holds, as it follows on the words of its header; or why that was not read.
#[derive(Clone, Copy)]
pub struct Holds<'a>(pub Message<'a>);

impl fmt::Display for Holds<'_> {
    fn fmt<W: fmt::Write>(&self, f: &mut fmt::Formatter<W>) -> fmt::Result {
        let Holds(message) = *self;
        let version = message.version;
        match message.content {
            Content::Discovery(body) => {
                let newer = from_version_2(version, body);
                write!(f, ": {}{}", Sender(body), Path(newer))
            }
            Content::DiscoveryReply(body) => {
                let newer = from_version_2(version, body);
                write!(f, ": {}{}{}", Sender(body), Path(newer), Block(newer))
            }
            Content::InvalidateMuid([a, b, c, d, ..]) => {
                write!(f, ": MUID {}", Device(muid_number(*a, *b, *c, *d)))
            }
            // never read: the contents are lent from the input, and a lent slice doesn't say that it has four bytes
            Content::InvalidateMuid(_) => write!(f, ": MUID unknown"),
            Content::ProfileInquiry => Ok(()),
            Content::ProfileReply { on, off } => {
                write!(f, ": {}; {}", Ids(on, "on"), Ids(off, "off"))
            }
            Content::SetOn(id)
            | Content::SetOff(id)
            | Content::Enabled(id)
            | Content::Disabled(id)
            | Content::Added(id)
            | Content::Removed(id) => write!(f, ": profile {}", Hex(id)),
            Content::Nak(body) => write!(f, ": {}", Reason(from_version_2(version, body))),
            Content::Other if version == 0 => write!(f, ": not read, version 0"),
            // other Sub-IDs are told by their header alone
            Content::Other if SubId::try_from(message.sub_id).is_ok() => {
                write!(f, ": not read, too short")
            }
            Content::Other => Ok(()),
        }
    }
}

/// The body of a message of version 2 or later, and no byte of an older one: what version 2 brought is told from it.
fn from_version_2(version: u8, body: &[u8]) -> &[u8] {
    if version >= 2 { body } else { &[] }
}

/// The body of a Discovery or of its reply: who sends it and what it can do.
#[derive(Clone, Copy)]
struct Sender<'a>(&'a [u8]);

impl fmt::Display for Sender<'_> {
    fn fmt<W: fmt::Write>(&self, f: &mut fmt::Formatter<W>) -> fmt::Result {
        let Some(head) = self.0.first_chunk::<16>() else {
            return write!(f, "no identity");
        };
        let manufacturer = Hex(&head[0..3]);
        let family = Hex(&head[3..5]);
        let model = Hex(&head[5..7]);
        let revision = Hex(&head[7..11]);
        write!(
            f,
            "manufacturer {manufacturer}, family {family}, model {model}, revision {revision}"
        )?;
        let [.., categories, a, b, c, d] = *head;
        let largest = muid_number(a, b, c, d);
        write!(
            f,
            ", categories {categories:02X}h, messages up to {largest} bytes"
        )
    }
}

/// The Output Path at its place in a body.
#[derive(Clone, Copy)]
struct Path<'a>(&'a [u8]);

impl fmt::Display for Path<'_> {
    fn fmt<W: fmt::Write>(&self, f: &mut fmt::Formatter<W>) -> fmt::Result {
        match self.0.get(16) {
            Some(path) => write!(f, ", Output Path {path}"),
            None => Ok(()),
        }
    }
}

/// The Function Block at its place in the body of a reply to Discovery.
#[derive(Clone, Copy)]
struct Block<'a>(&'a [u8]);

impl fmt::Display for Block<'_> {
    fn fmt<W: fmt::Write>(&self, f: &mut fmt::Formatter<W>) -> fmt::Result {
        match self.0.get(17) {
            Some(0x7F) => write!(f, ", no Function Block"),
            Some(block) => write!(f, ", Function Block {block}"),
            None => Ok(()),
        }
    }
}

/// Why a NAK was sent: the inquiry that it answers, and its status.
#[derive(Clone, Copy)]
struct Reason<'a>(&'a [u8]);

impl fmt::Display for Reason<'_> {
    fn fmt<W: fmt::Write>(&self, f: &mut fmt::Formatter<W>) -> fmt::Result {
        match self.0 {
            [sub_id, status, ..] => {
                let inquiry = Kind(*sub_id);
                let meaning = status_meaning(*status);
                write!(
                    f,
                    "of {inquiry} ({sub_id:02X}h), status {status:02X}h, {meaning}"
                )
            }
            _ => write!(f, "without a status"),
        }
    }
}
