//! Addresses of a device's parts.
ghost use Rattle.std.specs.Prelude.{◌≡◌, true, false, MatchOption};
ghost use Rattle.message.specs.Bytes.{is_address};

use std::fmt;

/// One of Channels 1 to 16 (00h to 0Fh), the Group (7Eh) or the Function Block (7Fh).
#[derive(Clone, Copy)]
pub struct Address {
    pub byte: u8,
    ghost known: { is_address byte ≡ true },
}

impl Address {
    /// The address that a byte says, unless it says none.
    // An Option and no `TryFrom`: the same fault is another refusal for each caller, so an error would only be thrown away.
    pub fn new(byte: u8) -> Option<Address>
        ensures { MatchOption result (is_address byte ≡ false) (λ a. a.byte ≡ byte) }
    {
        // `if` and no `then`: its closure would need a `requires` of its own for the fact, and so be no plainer.
        if matches!(byte, 0x00..=0x0F | 0x7E | 0x7F) {
            Some(Address { byte })
        } else {
            None
        }
    }

    /// The Function Block, which stands for the whole device.
    pub fn function_block() -> Address
        ensures { result.byte ≡ 0x7F }
    {
        Address { byte: 0x7F }
    }
}

impl fmt::Display for Address {
    fn fmt<W: fmt::Write>(&self, f: &mut fmt::Formatter<W>) -> fmt::Result {
        match self.byte {
            0x7E => write!(f, "Group"),
            0x7F => write!(f, "Function Block"),
            channel => {
                let number = u32::from(channel) + 1;
                write!(f, "Channel {number}")
            }
        }
    }
}
