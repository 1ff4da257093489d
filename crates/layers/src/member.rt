//! Profile IDs of which at most one is to be on at an address.
ghost use Rattle.layers.specs.Lists.{member_key, member_ranged};

use crate::entries::Ranged;
use message::all_seven_bits;
use rising::Keyed;
use std::cmp::Ordering;

/// A Profile ID and its set, one of 1 to 8, as a maker writes them down.
#[derive(Clone, Copy, Default)]
pub struct Member {
    pub id: [u8; 5],
    pub set: u8,
}

/// Members stand in the order of their ID bytes, so that an ID is in one set.
impl Keyed for Member {
    ghost key = { member_key };

    fn compare(&self, other: &Member) -> Ordering {
        self.id.cmp(&other.id)
    }
}

impl Ranged for Member {
    ghost ranged = { member_ranged };

    fn in_range(self) -> bool {
        (1..=8).contains(&self.set) && all_seven_bits(&self.id)
    }
}
