//! Device numbers.
ghost use Rattle.std.specs.Prelude.{◌≡◌, ◌%◌, ◌<◌, ◌≤◌, true, false, MatchOption, nat_lt};
ghost use Rattle.message.specs.Messages.{muid};

use std::fmt;

/// How many numbers a device may have: 0 to 268,435,199. The next 255 are reserved.
// `numbers` has it too: it stands on `rising` alone, and one more dependency would be no plainer.
const USABLE: u32 = 268_435_200;

/// The number that means every device.
const BROADCAST: u32 = 268_435_455;

/// A MUID, the number of a device: 28 bits.
#[derive(Clone, Copy)]
pub struct Muid {
    pub number: u32,
    ghost fits: { number < 0x10000000 },
}

impl Muid {
    /// The MUID of that number, unless it has more than 28 bits.
    // An Option and no `TryFrom`: the same fault is another refusal for each caller, so an error would only be thrown away.
    pub fn new(number: u32) -> Option<Muid>
        ensures { MatchOption result (0x10000000 ≤ number) (λ m. m.number ≡ number) }
    {
        // `if` and no `then`: its closure would need a `requires` of its own for the fact, and so be no plainer.
        if number < 0x1000_0000 {
            Some(Muid { number })
        } else {
            None
        }
    }

    /// The usable MUID that a draw gives: its remainder by 268,435,200.
    pub fn drawn(draw: u32) -> Muid
        ensures { result.number ≡ draw % 268435200 }
    {
        Muid {
            number: draw % USABLE,
        }
    }

    /// The four bytes of seven bits that say it, lowest first.
    pub(crate) fn bytes(self) -> [u8; 4]
        ensures { result ≡ muid self.number }
    {
        let n = self.number;
        // `as` narrows what has seven bits: `try_from` would be no plainer, with an error that cannot be.
        [
            (n % 0x80) as u8,
            (n / 0x80 % 0x80) as u8,
            (n / 0x4000 % 0x80) as u8,
            (n / 0x20_0000) as u8,
        ]
    }

    /// Every device.
    pub fn broadcast() -> Muid
        ensures { result.number ≡ 268435455 }
    {
        Muid { number: BROADCAST }
    }

    /// Whether a device may have this number: it is neither reserved nor broadcast.
    pub fn is_usable(self) -> bool
        ensures { result ≡ nat_lt self.number 268435200 }
    {
        self.number < USABLE
    }
}

impl fmt::Display for Muid {
    fn fmt<W: fmt::Write>(&self, f: &mut fmt::Formatter<W>) -> fmt::Result {
        let number = self.number;
        if number == BROADCAST {
            write!(f, "broadcast")
        } else {
            write!(f, "{number}")
        }
    }
}
