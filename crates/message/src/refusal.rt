//! Why a call is refused.
ghost use Rattle.std.specs.Prelude.{◌≡◌};
ghost use Rattle.message.specs.Refusals.{number};

use std::fmt;

/// Every refusal of the product. A refused call changes nothing.
#[derive(Clone, Copy, PartialEq, Eq, Debug)]
pub enum Refusal {
    BufferTooSmall = 1,
    NotFramed = 2,
    SourceNotUsable = 3,
    NotForUs = 4,
    NotUnderstood = 5,
    OutOfRange = 6,
    RowsFixed = 7,
    NoSuchRow = 8,
    RowPresent = 9,
    NoPlace = 10,
    RowOn = 11,
    NoConsent = 12,
    SheetLength = 13,
    SheetOrder = 14,
    FieldOutOfRange = 15,
    NotRising = 16,
    SetCollision = 17,
    ScriptFault = 18,
}

impl Refusal {
    /// The number by which a refusal is told.
    // No `From` for `u8`: `u8::from(refusal)` is no plainer than `refusal.number()`.
    pub fn number(self) -> u8
        ensures { result ≡ number self }
    {
        self as u8
    }

    /// What is wrong, in a short sentence.
    fn sentence(self) -> &'static str {
        match self {
            Refusal::BufferTooSmall => "the buffer is too small",
            Refusal::NotFramed => "the bytes are not framed as a MIDI-CI message",
            Refusal::SourceNotUsable => "the source is not a usable MUID of another device",
            Refusal::NotForUs => "the message is for another destination",
            Refusal::NotUnderstood => "the message has version 0 or is too short or malformed",
            Refusal::OutOfRange => "the address or Profile ID is out of range",
            Refusal::RowsFixed => "the rows of this host are fixed",
            Refusal::NoSuchRow => "there is no such row",
            Refusal::RowPresent => "the row is there already",
            Refusal::NoPlace => "there is no place for one more row",
            Refusal::RowOn => "the row is on",
            Refusal::NoConsent => "the host does not consent to this change",
            Refusal::SheetLength => "a sheet has 16 to 784 bytes in whole words",
            Refusal::SheetOrder => "the word is of a kind out of order",
            Refusal::FieldOutOfRange => "a field is out of range",
            Refusal::NotRising => "the entries do not rise strictly or are too many",
            Refusal::SetCollision => "two rows of one set are on at one address",
            Refusal::ScriptFault => "the script word is out of order or range",
        }
    }
}

impl fmt::Display for Refusal {
    fn fmt<W: fmt::Write>(&self, f: &mut fmt::Formatter<W>) -> fmt::Result {
        let number = self.number();
        let sentence = self.sentence();
        write!(f, "refusal {number}: {sentence}")
    }
}
