//! Reports of a switch.
ghost use Rattle.std.specs.Prelude.{◌≡◌, ℕ, ◌+◌, ◌≤◌, true, List, length};
ghost use Rattle.message.specs.Rows.{ranged};
ghost use Rattle.message.specs.Writing.{Put};
ghost use Rattle.message.specs.Pens.{Puts, Room};
ghost use Rattle.responder.specs.Steps.{fall_there, falls, fell, put_off, reports_bytes};

use crate::action::Named;
use crate::calls::ROOM;
use crate::listing::Listing;
use crate::sending::send;
use message::{Muid, Pen, Row, Sent};

/// Reports: the rows before and after a switch, the row that it named, and from whom. Few other rows were put off.
#[derive(Clone, Copy)]
pub(crate) struct Reports<'b, 'a> {
    pub before: Listing<'b>,
    pub after: Listing<'a>,
    pub named: Named,
    pub own: Muid,
    ghost few: { length (put_off named.address.byte named.id.bytes before.rows.now after.rows.now) ≤ 21 },
}

impl Reports<'_, '_> {
    /// Whether a row that stood on, other than the named one, is off after the switch.
    fn has_fallen(self, row: Row) -> bool
        ensures { result ≡ fell self.entry.named.address.byte self.entry.named.id.bytes self.entry.after.rows.now row }
    {
        row.on && self.named.pair() != row.pair() && !self.after.is_on(row.pair())
    }

    /// Puts the Disabled Report of a row if it has fallen.
    fn put_if_fallen(self, row: Row, pen: &mut Pen<'_>)
        requires ranges { ranged row.address row.id ≡ true }
        requires room { Room (fall_there self.own.number self.named.address.byte self.named.id.bytes self.after.rows.now row) pen.old }
        ensures { Puts (fall_there self.entry.own.number self.entry.named.address.byte self.entry.named.id.bytes self.entry.after.rows.now row) pen.old pen.new }
    {
        if self.has_fallen(row) {
            let fallen = Named::new(row.pair()).unwrap();
            send(fallen.report(false), self.own, pen);
        }
    }

    /// Puts a Disabled Report for each row that has fallen, in the listing's order.
    fn put_fallen(self, pen: &mut Pen<'_>)
        requires { Room (falls self.own.number self.named.address.byte self.named.id.bytes self.after.rows.now self.before.rows.now) pen.old }
        ensures { Puts (falls self.entry.own.number self.entry.named.address.byte self.entry.named.id.bytes self.entry.after.rows.now self.entry.before.rows.now) pen.old pen.new }
    {
        for row in self.before.rows {
            self.put_if_fallen(*row, pen);
        }
    }

    /// The Disabled Reports of the rows that have fallen, and last the report of the named row as it is now.
    pub fn write(self, answer: &mut [u8; ROOM]) -> usize
        ensures { Put answer.old 0 (reports_bytes self.entry.own.number self.entry.named.address.byte self.entry.named.id.bytes self.entry.before.rows.now self.entry.after.rows.now) result answer.new }
    {
        let mut pen = Pen { out: answer, at: 0 };
        self.put_fallen(&mut pen);
        let on = self.after.is_on(self.named.pair());
        send(self.named.report(on), self.own, &mut pen);
        pen.at
    }
}
