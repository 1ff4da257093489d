//! Rows of a listing.
ghost use Rattle.std.specs.Prelude.{◌≡◌};
ghost use Rattle.message.specs.Rows.{named, pair_of, row_key};

use crate::pair::Pair;
use rising::Keyed;
use std::cmp::Ordering;

/// A profile at an address, on or off, as a maker writes it down. A host's listing holds only rows in range.
#[derive(Clone, Copy, Default)]
pub struct Row {
    pub address: u8,
    pub id: [u8; 5],
    pub on: bool,
}

impl Row {
    /// The row that a pair names, on or off.
    // No `From`: it would take a tuple, and `Row::from((pair, on))` is no plainer.
    pub fn new(pair: Pair, on: bool) -> Row
        ensures { result ≡ named pair on }
    {
        let Pair { address, id } = pair;
        Row { address, id, on }
    }

    /// What names the row.
    // No `From` for `Pair`: `Pair::from(row)` is no plainer than `row.pair()`.
    // Hints, here and at `compare`: a search compares rows many times, and would copy two pairs each time.
    #[inline(always)]
    pub fn pair(self) -> Pair
        ensures { result ≡ pair_of self }
    {
        let Row { address, id, on: _ } = self;
        Pair { address, id }
    }
}

/// Rows stand in the order of their pairs.
impl Keyed for Row {
    ghost key = { row_key };

    #[inline(always)]
    fn compare(&self, other: &Row) -> Ordering {
        self.pair().compare(&other.pair())
    }
}
