//! The search of a row.
ghost use Rattle.std.specs.Prelude.{◌≡◌, List, is_some};
ghost use Rattle.rising.specs.Lists.{Rising};
ghost use Rattle.message.specs.Rows.{row_key};
ghost use Rattle.message.specs.declared.row.Row.{Row};
ghost use Rattle.host.specs.Rows.{has, look};
ghost use Rattle.host.specs.Finding.{state_at, Within};
ghost use Rattle.host.specs.Tables.{Placed};

use message::{Pair, Row};
use rising::find;

/// The place of the row that a pair names among rows that rise, as those of a listing do.
// By a rule the answer is an Option of an index. One more function for the state there would be no shorter for those who ask.
pub fn find_row(rows: &[Row], pair: Pair) -> Option<usize>
    ensures within { Within result rows.now }
    ensures listed { Rising row_key rows.now → is_some result ≡ has rows.now pair.address pair.id }
    ensures state { Rising row_key rows.now → (d : Row) → state_at result rows.now d ≡ look rows.now pair.address pair.id }
    ensures place { Rising row_key rows.now → Placed rows.now pair.address pair.id result }
{
    find(rows, &Row::new(pair, false))
}
