//! What is asked of a sheet, and the hosts that it makes.
ghost use Rattle.std.specs.Prelude.{◌≡◌};
ghost use Rattle.sheet.specs.Piles.{Piled};
ghost use Rattle.sheet.specs.Told.{holds};

use super::Sheet;
use host::{Host, Table};
use layers::{Holding, Member, Pair, Sets};
use message::Row;

impl Sheet {
    /// The rows, rising by address and then by ID bytes.
    pub fn rows(&self) -> &[Row]
        ensures { result.now ≡ (holds self.now).rows }
    {
        self.table.rows()
    }

    /// The members of sets, rising by ID bytes.
    pub fn members(&self) -> &[Member]
        ensures { result.now ≡ (holds self.now).members }
    {
        self.members.as_slice()
    }

    /// The pairs whose rows are held, rising by address and then by ID bytes.
    pub fn pairs(&self) -> &[Pair]
        ensures { result.now ≡ (holds self.now).pairs }
    {
        self.pairs.as_slice()
    }

    /// The hosts that the sheet makes: sets over holding over table, which mean what it says.
    pub fn into_pile(self) -> Sets<Holding<Table>>
        ensures { Piled (holds self) result }
    {
        let Sheet {
            identity: _,
            table,
            members,
            pairs,
        } = self;
        Sets::over(Holding::over(table, pairs), members)
    }
}
