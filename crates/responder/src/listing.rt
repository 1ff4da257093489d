//! The rows that a host lists.
ghost use Rattle.std.specs.Prelude.{◌≡◌, false, true, length, take, MatchOption};
ghost use Rattle.host.specs.Rows.{has as listed, is_on, look, Sound};
ghost use Rattle.responder.specs.Plans.{has_row};

use crate::action::Named;
use host::{Host, MOST_ROWS, find_row};
use message::{Pair, Row};

/// The rows of a host: few, in range and rising.
#[derive(Clone, Copy)]
pub(crate) struct Listing<'a> {
    pub rows: &'a [Row],
    ghost sound: { Sound rows.now },
}

impl<'a> Listing<'a> {
    /// What a host lists.
    pub fn of<P: Host>(host: &'a P) -> Listing<'a>
        ensures { result.rows.now ≡ P.Host.listing host.now }
    {
        Listing { rows: host.rows() }
    }

    /// Whether some row stands at an address.
    pub fn has_row(self, address: u8) -> bool
        ensures { result ≡ has_row self.entry.rows.now address }
    {
        // A rule of the project: replies go over rows by an index.
        for k in 0..self.rows.len() {
            if address == self.rows[k].address {
                return true;
            }
        }
        false
    }

    /// Whether the row that a pair names is listed and on.
    pub fn is_on(self, pair: Pair) -> bool
        ensures { result ≡ is_on (look self.entry.rows.now pair.address pair.id) }
    {
        find_row(self.rows, pair).is_some_and(|k| self.rows[k].on)
    }

    /// The row that a pair names, if it is listed.
    pub fn find(self, pair: Pair) -> Option<Named>
        ensures { MatchOption result (listed self.entry.rows.now pair.address pair.id ≡ false) (λ n. (n.address.byte ≡ pair.address) × (n.id.bytes ≡ pair.id) × (listed self.entry.rows.now pair.address pair.id ≡ true)) }
    {
        find_row(self.rows, pair)?;
        Named::new(pair)
    }

    /// A copy of the rows, with room for the most that a listing has.
    pub fn copy(self) -> [Row; MOST_ROWS]
        ensures { take (length self.entry.rows.now) result ≡ self.entry.rows.now }
    {
        let mut copy = [Row::default(); MOST_ROWS];
        copy[0..self.rows.len()].copy_from_slice(self.rows);
        copy
    }
}
