//! Members of a layer's list.
ghost use Rattle.std.specs.Prelude.{◌≡◌};
ghost use Rattle.layers.specs.Models.{members_of};
ghost use Rattle.layers.specs.Sets.{set_of, some_set, together, rival};

use crate::entries::Entries;
use crate::member::Member;
use message::{Pair, Row};
use rising::find;

/// Up to 16 members of sets, in range and rising by ID, so that an ID is in one set at most.
pub type Members = Entries<Member>;

impl Entries<Member> {
    // The set that an ID is in, if it is in one.
    fn set_of(&self, id: [u8; 5]) -> Option<u8>
        ensures { result ≡ some_set (set_of (members_of self.now) id) }
    {
        let list = self.as_slice();
        find(list, &Member { id, set: 0 }).map(|k| list[k].set)
    }

    // Whether two IDs are in one set.
    fn share_a_set(&self, one: [u8; 5], other: [u8; 5]) -> bool
        ensures { result ≡ together (members_of self.now) one other }
    {
        self.set_of(one)
            .is_some_and(|set| self.set_of(other) == Some(set))
    }

    /// Whether the row is a rival of the row with that pair: another one that is on, at that address and in that set.
    pub fn is_rival(&self, pair: Pair, row: Row) -> bool
        ensures { result ≡ rival (members_of self.now) pair.address pair.id row }
    {
        pair.address == row.address
            && row.on
            && self.share_a_set(pair.id, row.id)
            && pair.id != row.id
    }
}
