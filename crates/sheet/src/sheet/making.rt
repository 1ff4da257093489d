//! Makes the lists of a sheet from those of a draft without fault, which no making refuses.
ghost use Rattle.std.specs.Prelude.{◌≡◌};
ghost use Rattle.sheet.specs.Drafts.{contents};
ghost use Rattle.sheet.specs.Told.{holds};
ghost use Rattle.sheet.specs.Valid.{Valid};

use super::Sheet;
use crate::draft::Draft;
use host::Table;
use layers::{Members, Pairs};

/// The sheet that a draft has become.
pub(crate) fn make(draft: &Draft) -> Sheet
    requires { Valid (contents draft.now) }
    ensures { holds result ≡ contents draft.now }
{
    Sheet {
        identity: draft.identity,
        table: Table::from_rows(draft.rows.as_slice()).unwrap(),
        members: Members::from_slice(draft.members.as_slice()).unwrap(),
        pairs: Pairs::from_slice(draft.pairs.as_slice()).unwrap(),
    }
}
