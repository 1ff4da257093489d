//! Pairs of a layer's list.
ghost use Rattle.std.specs.Prelude.{◌≡◌};
ghost use Rattle.layers.specs.Models.{pairs_of};
ghost use Rattle.layers.specs.Holding.{withheld};

use crate::entries::Entries;
use message::Pair;
use rising::find;

/// Up to 16 pairs of address and Profile ID, in range and rising by address, then ID.
pub type Pairs = Entries<Pair>;

impl Entries<Pair> {
    /// Whether the pair is in the list.
    pub fn contains(&self, pair: Pair) -> bool
        ensures { result ≡ withheld (pairs_of self.now) pair.address pair.id }
    {
        find(self.as_slice(), &pair).is_some()
    }
}
