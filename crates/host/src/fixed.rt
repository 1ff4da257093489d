//! The fixed host.
ghost use Rattle.std.specs.Prelude.{◌≡◌, true, Some, None, MatchResult};
ghost use Rattle.host.specs.Making.{fault, Exact};
ghost use Rattle.host.specs.Tables.{listed, never};
ghost use Rattle.host.specs.Lawfulness.{sound-listed, never_lawful};

use crate::host::Host;
use crate::table::Table;
use message::{Pair, Refusal, Row};

/// Lists the rows given at its making, consents to no switch, and its rows can be neither plugged nor pulled.
#[derive(Drop)]
pub struct Fixed {
    table: Table,
}

impl Fixed {
    /// A fixed host of these rows. Rows out of range are refused, and then rows that are no listing.
    pub fn from_rows(rows: &[Row]) -> Result<Fixed, Refusal>
        ensures made { MatchResult result (λ t. (fault rows.now ≡ None) × (listed t.table.rows ≡ rows.now)) (λ e. fault rows.now ≡ Some e) }
        ensures exact { Exact rows.now }
    {
        let table = Table::from_rows(rows)?;
        Ok(Fixed { table })
    }
}

impl Host for Fixed {
    ghost listing = { λ h. listed h.table.rows };

    ghost consents = { λ _. never };

    ghost fixed = { λ _. true };

    ghost lawful = { λ h. never_lawful (listed h.table.rows) (sound-listed h.table.rows h.table.within h.table.each h.table.ranges h.table.order) };

    ghost keeps = { λ _ _. Unit {0} };

    ghost keeps_itself = { λ _. tt };

    ghost keeps_on = { λ _ _ _ _ _. tt };

    fn rows(&self) -> &[Row] {
        self.table.rows()
    }

    fn may_go_on(&self, _pair: Pair) -> bool {
        false
    }

    fn may_go_off(&self, _pair: Pair) -> bool {
        false
    }

    fn puts_off(&self, _pair: Pair, _other: [u8; 5]) -> bool {
        false
    }

    fn is_fixed(&self) -> bool {
        true
    }

    fn switch(&mut self, _pair: Pair, _on: bool) -> bool {
        false
    }

    fn plug(&mut self, _pair: Pair) -> bool {
        false
    }

    fn pull(&mut self, _pair: Pair) -> bool {
        false
    }
}
