//! The reply to a listing inquiry, written over the rows of one address.
ghost use Rattle.std.specs.Prelude.{◌≡◌, ℕ, ◌+◌, ◌*◌, ◌/◌, ◌%◌, ◌<◌, ◌≤◌, [], ◌∷◌, length};
ghost use Rattle.std.specs.List.{flat_map};
ghost use Rattle.message.specs.Messages.{encode};
ghost use Rattle.message.specs.Rows.{stands, part, rows_of};
ghost use Rattle.message.specs.Sending.{counted, ids_of, profile_list};
ghost use Rattle.message.specs.Pens.{PutOrNot, Puts, Room};
ghost use Rattle.message.specs.Writing.{Written};

use crate::address::Address;
use crate::head::Head;
use crate::muid::Muid;
use crate::pen::Pen;
use crate::refusal::Refusal;
use crate::row::Row;
use crate::sub_id::SubId;

/// The most rows of which a message of 512 bytes can tell.
const MOST_ROWS: usize = 98;

impl Row {
    /// Whether the row stands at the address, and is on or off as asked.
    pub fn stands_at(self, address: u8, on: bool) -> bool
        ensures value { result ≡ stands address on self }
        ensures five { length self.id ≡ 5 }
    {
        self.address == address && self.on == on
    }
}

/// The rows at an address that are on, or off.
#[derive(Clone, Copy)]
struct Part<'a> {
    rows: &'a [Row],
    address: u8,
    on: bool,
}

impl Part<'_> {
    /// How many they are.
    fn count(self) -> usize
        ensures value { result ≡ length (rows_of self.entry) }
        ensures ids { length (ids_of (rows_of self.entry)) ≡ 5 * result }
        ensures bound { result ≤ length self.entry.rows.now }
    {
        let rows = self.rows;
        let mut count = 0;
        // A rule of the project: the rows at an address are counted by an index.
        for k in 0..rows.len() {
            if rows[k].stands_at(self.address, self.on) {
                count += 1;
            }
        }
        count
    }

    /// Puts their IDs in the listing's order.
    fn put_ids(self, pen: &mut Pen<'_>)
        requires { Room (ids_of (rows_of self)) pen.old }
        ensures { Puts (ids_of (rows_of self.entry)) pen.old pen.new }
    {
        let rows = self.rows;
        // A rule of the project: replies are written by loops over rows with an index.
        for k in 0..rows.len() {
            if rows[k].stands_at(self.address, self.on) {
                pen.put(&rows[k].id);
            }
        }
    }

    /// Puts how many they are, and their IDs.
    fn put(self, pen: &mut Pen<'_>)
        requires room { Room (counted (rows_of self)) pen.old }
        requires few { length (rows_of self) ≤ 98 }
        ensures { Puts (counted (rows_of self.entry)) pen.old pen.new }
    {
        let count = self.count();
        // `as` narrows what has seven bits: `try_from` would be no plainer, with an error that cannot be.
        pen.put(&[(count % 0x80) as u8, (count / 0x80) as u8]);
        self.put_ids(pen);
    }
}

/// How many rows at an address are on, or off.
pub fn count_rows(rows: &[Row], address: u8, on: bool) -> usize
    ensures value { result ≡ length (part address on rows.now) }
    ensures ids { length (ids_of (part address on rows.now)) ≡ 5 * result }
    ensures bound { result ≤ length rows.now }
{
    Part { rows, address, on }.count()
}

/// Writes the reply to a listing inquiry at an address with a pen, as a `Sent` is written.
pub fn put_profile_reply(
    rows: &[Row],
    address: Address,
    own: Muid,
    to: Muid,
    pen: &mut Pen<'_>,
) -> Result<(), Refusal>
    ensures { PutOrNot (encode (profile_list own.number to.number address.byte rows.now)) pen.old result pen.new }
{
    let on = Part {
        rows,
        address: address.byte,
        on: true,
    };
    let off = Part { on: false, ..on };
    let (on_count, off_count) = (on.count(), off.count());
    if on_count > MOST_ROWS || off_count > MOST_ROWS - on_count {
        return Err(Refusal::BufferTooSmall);
    }
    if !pen.has_room(19 + 5 * (on_count + off_count)) {
        return Err(Refusal::BufferTooSmall);
    }
    let head = Head {
        sub_id: SubId::ReplyToProfileInquiry,
        address,
        source: own,
        destination: to,
    };
    head.put(pen);
    on.put(pen);
    off.put(pen);
    pen.put(&[0xF7]);
    Ok(())
}

/// Writes the reply to a listing inquiry at an address, as `write` writes a message.
// A buffer and a place are a promise to callers, so they stay: `put_profile_reply` takes a pen.
pub fn write_profile_reply(
    rows: &[Row],
    address: Address,
    own: Muid,
    to: Muid,
    out: &mut [u8],
    at: usize,
) -> Result<usize, Refusal>
    ensures { Written (encode (profile_list own.number to.number address.byte rows.now)) out.old at result out.new }
{
    let mut pen = Pen { out, at };
    put_profile_reply(rows, address, own, to, &mut pen)?;
    Ok(pen.at)
}
