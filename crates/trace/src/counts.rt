//! What is counted along a cable.
ghost use Rattle.std.specs.Prelude.{◌≡◌, ◌-◌};
ghost use Rattle.trace.specs.Counting.{none, with_bytes, with_message};

use std::fmt;

/// Bytes read, whole messages, those of MIDI-CI, and the bytes of all whole messages. A count that is full stays.
#[derive(Clone, Copy, Default)]
pub struct Counts {
    pub bytes: u64,
    pub messages: u64,
    pub midi_ci: u64,
    pub told: u64,
}

impl Counts {
    /// Nothing was read.
    // `default` with the contract that callers' clauses cite: four zeros written out would be no plainer.
    pub fn new() -> Counts
        ensures { result ≡ none }
    {
        Counts::default()
    }

    /// The counts with so many bytes more.
    // `as` widens, here and for a message's length: the library has no `From` or `TryFrom` of a `usize` for `u64`.
    pub fn with_bytes(self, n: usize) -> Counts
        ensures { result ≡ with_bytes self n }
    {
        Counts {
            bytes: self.bytes.saturating_add(n as u64),
            ..self
        }
    }

    /// The counts with a message more.
    pub fn with_message(self, length: usize, midi_ci: bool) -> Counts
        ensures { result ≡ with_message self length midi_ci }
    {
        Counts {
            messages: self.messages.saturating_add(1),
            midi_ci: self.midi_ci.saturating_add(u64::from(midi_ci)),
            told: self.told.saturating_add(length as u64),
            ..self
        }
    }

    /// How many bytes belong to no whole message.
    pub fn skipped(self) -> u64
        ensures { result ≡ self.bytes - self.told }
    {
        self.bytes.saturating_sub(self.told)
    }
}

impl fmt::Display for Counts {
    fn fmt<W: fmt::Write>(&self, f: &mut fmt::Formatter<W>) -> fmt::Result {
        let messages = self.messages;
        let midi_ci = self.midi_ci;
        let skipped = self.skipped();
        write!(
            f,
            "messages: {messages}, of MIDI-CI: {midi_ci}, bytes skipped: {skipped}"
        )
    }
}
