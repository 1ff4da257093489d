//! The table host.
ghost use Rattle.std.specs.Prelude.{◌≡◌, ℕ, ◌≤◌, true, false, [], length, Some, None, MatchResult};
ghost use Rattle.rising.specs.Lists.{Rising};
ghost use Rattle.message.specs.Rows.{row_key, all_ranged};
ghost use Rattle.host.specs.Rows.{tally};
ghost use Rattle.host.specs.Making.{fault, Exact};
ghost use Rattle.host.specs.Tables.{listed, freely};
ghost use Rattle.host.specs.Lawfulness.{sound-listed, freely_lawful};

use crate::finding::find_row;
use crate::host::Host;
use crate::rows::{Rows, fits_in};
use message::{Pair, Refusal, Row};

/// Holds its rows itself, consents to every switch of a listed row, and lets rows be plugged and pulled.
#[derive(Drop)]
pub struct Table {
    rows: Rows,
    ghost within: { rows.count ≤ 64 },
    ghost whole: { length rows.slots ≡ 64 },
    ghost each: { (a : ℕ) → tally a (listed rows) ≤ 21 },
    ghost ranges: { all_ranged (listed rows) ≡ true },
    ghost order: { Rising row_key (listed rows) },
}

impl Table {
    /// A table without rows.
    pub fn empty() -> Table
        ensures { listed result.rows ≡ [] }
    {
        Table { rows: Rows::none() }
    }

    /// A table of these rows. Rows out of range are refused, and then rows that are no listing.
    pub fn from_rows(rows: &[Row]) -> Result<Table, Refusal>
        ensures made { MatchResult result (λ t. (fault rows.now ≡ None) × (listed t.rows ≡ rows.now)) (λ e. fault rows.now ≡ Some e) }
        ensures exact { Exact rows.now }
    {
        let rows = Rows::from_slice(rows)?;
        Ok(Table { rows })
    }
}

impl Host for Table {
    ghost listing = { λ h. listed h.rows };

    ghost consents = { λ h. freely (listed h.rows) };

    ghost fixed = { λ _. false };

    ghost lawful = { λ h. freely_lawful (listed h.rows) (sound-listed h.rows h.within h.each h.ranges h.order) };

    ghost keeps = { λ _ _. Unit {0} };

    ghost keeps_itself = { λ _. tt };

    ghost keeps_on = { λ _ _ _ _ _. tt };

    fn rows(&self) -> &[Row] {
        &self.rows.slots[0..self.rows.count]
    }

    fn may_go_on(&self, pair: Pair) -> bool {
        find_row(self.rows(), pair).is_some()
    }

    fn may_go_off(&self, pair: Pair) -> bool {
        find_row(self.rows(), pair).is_some()
    }

    fn puts_off(&self, _pair: Pair, _other: [u8; 5]) -> bool {
        false
    }

    fn is_fixed(&self) -> bool {
        false
    }

    fn switch(&mut self, pair: Pair, on: bool) -> bool {
        match find_row(self.rows(), pair) {
            Some(k) if self.rows.slots[k].on != on => {
                self.rows.turn(k, on);
                true
            }
            _ => false,
        }
    }

    fn plug(&mut self, pair: Pair) -> bool {
        let fits = fits_in(self.rows(), pair);
        if fits {
            self.rows.enter(pair);
        }
        fits
    }

    fn pull(&mut self, pair: Pair) -> bool {
        let leaves = find_row(self.rows(), pair).is_some_and(|k| !self.rows.slots[k].on);
        if leaves {
            self.rows.remove(pair);
        }
        leaves
    }
}
