//! What an accepted sheet holds.
ghost use Rattle.host.specs.Tables.{listed};
ghost use Rattle.layers.specs.Models.{members_of};
ghost use Rattle.layers.specs.Sets.{AtMostOne};

use host::Table;
use layers::{Members, Pairs};
use message::Identity;

// What is promised of a sheet names its value, which cannot be done where it is declared. No `impl Model`: callers read the field
// `identity`, and of a type with a model a clause sees the value alone.
mod calls;
pub(crate) mod making;

/// An instrument as its maker wrote it down: identity and Function Block, rows, members of sets and held pairs, all in range
/// and in order, with at most one row of a set on at an address.
#[derive(Drop)]
pub struct Sheet {
    /// Manufacturer, family, model and revision, and the Function Block.
    pub identity: Identity,
    table: Table,
    members: Members,
    pairs: Pairs,
    ghost one_on: { AtMostOne (members_of members) (listed table.rows) },
}
