//! Rows in a fixed table, and what is asked of rows.
ghost use Rattle.std.specs.Prelude.{◌≡◌, ◌<◌, ◌≤◌, false, ◌&&◌, length, Some, None, MatchResult};
ghost use Rattle.rising.specs.Lists.{Rising, entering};
ghost use Rattle.message.specs.Rows.{all_ranged, row_key};
ghost use Rattle.host.specs.Rows.{row, tally, without_row};
ghost use Rattle.host.specs.Hosts.{plugs};
ghost use Rattle.host.specs.Making.{crowded, disordered, fault};
ghost use Rattle.host.specs.Tables.{listed, put};

use crate::finding::find_row;
use message::{Pair, Refusal, Row};
use rising::{enter, remove, rises};

/// The most rows of a listing.
pub const MOST_ROWS: usize = 64;

/// The most rows at one address.
pub const MOST_AT_ONE: usize = 21;

/// Up to 64 rows: the first `count` slots are in use.
// Two rules: fixed memory, as firmware has no heap; and a plain inner struct, which lends one row to have its state turned.
#[derive(Drop)]
pub struct Rows {
    pub slots: [Row; MOST_ROWS],
    pub count: usize,
}

/// Whether every row is in range.
fn all_in_range(rows: &[Row]) -> bool
    ensures { result ≡ all_ranged rows.now }
{
    rows.iter().all(|row| row.pair().in_range())
}

/// How many rows stand at an address.
pub fn count_at(rows: &[Row], address: u8) -> usize
    ensures value { result ≡ tally address rows.now }
    ensures bound { result ≤ length rows.now }
{
    // A loop: `filter(..).count()` takes more than twice as long, and a making counts for each of its rows.
    let mut count = 0;
    for row in rows {
        if address == row.address {
            count += 1;
        }
    }
    count
}

/// Whether more than 21 rows stand at the address of one of them.
fn is_crowded(rows: &[Row]) -> bool
    ensures { result ≡ crowded rows.now }
{
    rows.iter()
        .any(|row| count_at(rows, row.address) > MOST_AT_ONE)
}

/// Whether rows are too many or out of order.
fn is_disordered(rows: &[Row]) -> bool
    ensures { result ≡ disordered rows.now }
{
    rows.len() > MOST_ROWS || !rises(rows) || is_crowded(rows)
}

/// Refuses rows of which no host can be made.
// Not one function with that of the layers: only two calls would be shared, since rows have another limit and are counted at
// each address.
fn judge(rows: &[Row]) -> Result<(), Refusal>
    ensures { MatchResult result (λ _. fault rows.now ≡ None) (λ e. fault rows.now ≡ Some e) }
{
    if !all_in_range(rows) {
        return Err(Refusal::FieldOutOfRange);
    }
    if is_disordered(rows) {
        return Err(Refusal::NotRising);
    }
    Ok(())
}

/// Whether a row may enter these, which rise.
pub(crate) fn fits_in(rows: &[Row], pair: Pair) -> bool
    requires { Rising row_key rows.now }
    ensures { result ≡ plugs rows.now false pair.address pair.id }
{
    pair.in_range()
        && find_row(rows, pair).is_none()
        && rows.len() < MOST_ROWS
        && count_at(rows, pair.address) < MOST_AT_ONE
}

impl Rows {
    /// No rows.
    pub(crate) fn none() -> Rows
        ensures none { result.count ≡ 0 }
        ensures whole { length result.slots ≡ 64 }
    {
        Rows {
            slots: [Row::default(); MOST_ROWS],
            count: 0,
        }
    }

    /// The given rows, if a host can be made from them.
    pub(crate) fn from_slice(rows: &[Row]) -> Result<Rows, Refusal>
        ensures { MatchResult result (λ t. (fault rows.now ≡ None) × (listed t ≡ rows.now) × (t.count ≤ 64) × (length t.slots ≡ 64)) (λ e. fault rows.now ≡ Some e) }
    {
        judge(rows)?;
        let mut slots = [Row::default(); MOST_ROWS];
        slots[0..rows.len()].copy_from_slice(rows);
        Ok(Rows {
            slots,
            count: rows.len(),
        })
    }

    /// Puts the row at a place on or off.
    pub(crate) fn turn(&mut self, k: usize, on: bool)
        requires { k < 64 }
        ensures slots { self.new.slots ≡ put self.old.slots k on }
        ensures count { self.new.count ≡ self.old.count }
    {
        let row = &mut self.slots[k];
        row.on = on;
    }

    /// Enters a row as off, at its place.
    pub(crate) fn enter(&mut self, pair: Pair)
        requires within { self.old.count ≤ 64 }
        requires whole { length self.old.slots ≡ 64 }
        requires order { Rising row_key (listed self.old) }
        ensures rows { listed self.new ≡ entering 64 row_key (row pair.address pair.id false) (listed self.old) }
        ensures within { self.new.count ≤ 64 }
        ensures whole { length self.new.slots ≡ 64 }
    {
        self.count = enter(&mut self.slots, self.count, Row::new(pair, false));
    }

    /// Removes a row.
    pub(crate) fn remove(&mut self, pair: Pair)
        requires within { self.old.count ≤ 64 }
        requires whole { length self.old.slots ≡ 64 }
        requires order { Rising row_key (listed self.old) }
        ensures rows { listed self.new ≡ without_row pair.address pair.id (listed self.old) }
        ensures within { self.new.count ≤ 64 }
        ensures whole { length self.new.slots ≡ 64 }
    {
        self.count = remove(&mut self.slots, self.count, &Row::new(pair, false));
    }
}
