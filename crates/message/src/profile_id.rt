//! Profile IDs.
ghost use Rattle.std.specs.Prelude.{◌≡◌, true, false, MatchOption};
ghost use Rattle.message.specs.Bytes.{is_id};

use crate::bytes::all_seven_bits;
use std::fmt;

/// Five bytes below 80h that name a profile and its level.
#[derive(Clone, Copy)]
pub struct ProfileId {
    pub bytes: [u8; 5],
    ghost low: { is_id bytes ≡ true },
}

impl ProfileId {
    /// The Profile ID of five bytes, unless one has eight bits.
    // An Option and no `TryFrom`: the same fault is another refusal for each caller, so an error would only be thrown away.
    pub fn new(bytes: [u8; 5]) -> Option<ProfileId>
        ensures { MatchOption result (is_id bytes ≡ false) (λ i. i.bytes ≡ bytes) }
    {
        // `if` and no `then`: its closure would need a `requires` of its own for the fact, and so be no plainer.
        if all_seven_bits(&bytes) {
            Some(ProfileId { bytes })
        } else {
            None
        }
    }
}

// Callers may print it, so it stays, though programs here print the bytes of messages, which are no `ProfileId`s.
impl fmt::Display for ProfileId {
    fn fmt<W: fmt::Write>(&self, f: &mut fmt::Formatter<W>) -> fmt::Result {
        let [a, b, c, d, e] = self.bytes;
        write!(f, "{a:02X} {b:02X} {c:02X} {d:02X} {e:02X}")
    }
}
