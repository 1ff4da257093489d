//! A message in words.
use crate::holds::Holds;
use crate::parts::{Device, Kind, Place};
use message::Message;
use std::fmt;

/// A message: its kind, address, version, source and destination, and what it holds.
#[derive(Clone, Copy)]
pub struct Words<'a>(pub Message<'a>);

impl fmt::Display for Words<'_> {
    fn fmt<W: fmt::Write>(&self, f: &mut fmt::Formatter<W>) -> fmt::Result {
        let Words(message) = *self;
        let kind = Kind(message.sub_id);
        let place = Place(message.address);
        let version = message.version;
        let source = Device(message.source);
        let destination = Device(message.destination);
        write!(
            f,
            "{kind} at {place}, version {version}, from {source} to {destination}{}",
            Holds(message)
        )
    }
}
