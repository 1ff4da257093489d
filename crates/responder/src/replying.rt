//! Replies to a listing inquiry.
ghost use Rattle.std.specs.Prelude.{◌≡◌, ℕ, ◌+◌, ◌≤◌, List, length};
ghost use Rattle.message.specs.Messages.{encode};
ghost use Rattle.message.specs.Sending.{profile_list};
ghost use Rattle.message.specs.Writing.{Put};
ghost use Rattle.message.specs.Pens.{Puts, Room};
ghost use Rattle.responder.specs.Steps.{lists_bytes, reply_there};

use crate::calls::ROOM;
use crate::listing::Listing;
use message::{Address, Muid, Pen, put_profile_reply};

/// Replies: of which rows they tell, from whom and to whom.
#[derive(Clone, Copy)]
pub(crate) struct Replies<'a> {
    pub listing: Listing<'a>,
    pub own: Muid,
    pub to: Muid,
}

impl Replies<'_> {
    /// Puts the reply at an address where there is room for it.
    fn put(self, address: Address, pen: &mut Pen<'_>)
        requires { Room (encode (profile_list self.own.number self.to.number address.byte self.listing.rows.now)) pen.old }
        ensures { Puts (encode (profile_list self.entry.own.number self.entry.to.number address.byte self.entry.listing.rows.now)) pen.old pen.new }
    {
        put_profile_reply(self.listing.rows, address, self.own, self.to, pen).unwrap();
    }

    /// Puts the reply at an address if it has a row.
    fn put_if_any(self, address: Address, pen: &mut Pen<'_>)
        requires { Room (reply_there self.own.number self.to.number self.listing.rows.now address.byte) pen.old }
        ensures { Puts (reply_there self.entry.own.number self.entry.to.number self.entry.listing.rows.now address.byte) pen.old pen.new }
    {
        if self.listing.has_row(address.byte) {
            self.put(address, pen);
        }
    }

    /// Puts replies for each channel that has a row, rising, for the Group if it has one, and for the Function Block.
    fn put_every(self, pen: &mut Pen<'_>)
        requires { Room (lists_bytes self.own.number self.to.number self.listing.rows.now 0x7F) pen.old }
        ensures { Puts (lists_bytes self.entry.own.number self.entry.to.number self.entry.listing.rows.now 0x7F) pen.old pen.new }
    {
        // By their bytes, since the channels are counted: names for the last two would be no plainer.
        for channel in 0..16u8 {
            self.put_if_any(Address { byte: channel }, pen);
        }
        self.put_if_any(Address { byte: 0x7E }, pen);
        self.put(Address { byte: 0x7F }, pen);
    }

    /// The answer to a listing inquiry at an address.
    pub fn write(self, address: Address, answer: &mut [u8; ROOM]) -> usize
        ensures { Put answer.old 0 (lists_bytes self.entry.own.number self.entry.to.number self.entry.listing.rows.now address.byte) result answer.new }
    {
        let mut pen = Pen { out: answer, at: 0 };
        // By its byte, as in `put_every`.
        if address.byte == 0x7F {
            self.put_every(&mut pen);
        } else {
            self.put(address, &mut pen);
        }
        pen.at
    }
}
