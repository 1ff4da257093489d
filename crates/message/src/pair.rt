//! What names a row.
ghost use Rattle.std.specs.Prelude.{◌≡◌};
ghost use Rattle.message.specs.Rows.{pair_key, pair_ranged, paired};

use crate::address::Address;
use crate::bytes::all_seven_bits;
use rising::Keyed;
use std::cmp::Ordering;

/// An address and a Profile ID, as a maker writes them down: they name a row.
#[derive(Clone, Copy, Default, PartialEq, Eq, PartialOrd, Ord)]
pub struct Pair {
    pub address: u8,
    pub id: [u8; 5],
}

impl Pair {
    /// The pair of an address and an ID, in range or not.
    pub fn new(address: u8, id: [u8; 5]) -> Pair
        ensures { result ≡ paired address id }
    {
        Pair { address, id }
    }

    /// Whether the address is one and every byte of the ID is below 80h.
    pub fn in_range(self) -> bool
        ensures { result ≡ pair_ranged self }
    {
        Address::new(self.address).is_some() && all_seven_bits(&self.id)
    }
}

/// Pairs stand in the order of their addresses, and at one address of their ID bytes.
impl Keyed for Pair {
    ghost key = { pair_key };

    // A hint, as for rows.
    #[inline(always)]
    fn compare(&self, other: &Pair) -> Ordering {
        self.cmp(other)
    }
}
