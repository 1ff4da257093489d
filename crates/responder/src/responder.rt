//! What a responder holds.
use message::Identity;
use numbers::Numbers;

/// Answers Capability Inquiry for one instrument: its host, what it says of itself, and the devices that it knows.
// No `impl Model`: `start` promises the fields `host` and `identity`, and of a type with a model a clause sees the value alone.
#[derive(Drop)]
pub struct Responder<P> {
    pub(crate) host: P,
    pub(crate) identity: Identity,
    pub(crate) numbers: Numbers,
}
