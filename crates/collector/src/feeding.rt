//! One call for each byte of a cable.
//!
//! Speed: a call compares the buffer's length and the byte, writes at most one byte of the buffer and the count, and has no loop, no
//! heap and no copy, so its cost depends neither on the message's length nor on the buffer's. A stream costs one call for each byte.
ghost use Rattle.std.specs.Prelude.{◌≡◌};
ghost use Rattle.collector.specs.Step.{feeds};

use crate::{Collector, LONGEST};
use message::Refusal;

impl Collector {
    /// Takes the next byte of the cable, and tells the length of a message that it ends: the message stands at the buffer's front.
    /// Lend the same buffer to each call, of at least 512 bytes; a shorter one is refused. With another buffer nothing goes out of bounds, but a
    /// message that was open then has its first bytes in the old one.
    pub fn feed(&mut self, byte: u8, buffer: &mut [u8]) -> Result<Option<usize>, Refusal>
        ensures held { self.new.held ≡ (feeds self.old.held byte buffer.old).held }
        ensures bytes { buffer.new ≡ (feeds self.old.held byte buffer.old).buffer }
        ensures answer { result ≡ (feeds self.old.held byte buffer.old).answer }
    {
        if buffer.len() < LONGEST {
            return Err(Refusal::BufferTooSmall);
        }
        match (byte, self.held) {
            // real-time bytes come between any two bytes of a message
            (0xF8..=0xFF, _) => Ok(None),
            (0xF0, _) => {
                buffer[0] = 0xF0;
                self.held = Some(1);
                Ok(None)
            }
            (_, None) => Ok(None),
            (0xF7, Some(n)) if n < LONGEST => {
                buffer[n] = 0xF7;
                self.held = None;
                Ok(Some(n + 1))
            }
            (0..=0x7F, Some(n)) if n < LONGEST => {
                buffer[n] = byte;
                self.held = Some(n + 1);
                Ok(None)
            }
            // a status byte, or a 513th byte
            _ => {
                self.held = None;
                Ok(None)
            }
        }
    }
}
