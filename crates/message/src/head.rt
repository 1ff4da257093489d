//! What a message that is sent begins with.
ghost use Rattle.std.specs.Prelude.{◌≡◌, ℕ, ◌+◌, ◌*◌, ◌<◌, ◌≤◌, ◌++◌, length};
ghost use Rattle.message.specs.Codes.{code};
ghost use Rattle.message.specs.Messages.{header, encode};
ghost use Rattle.message.specs.Sending.{sends};
ghost use Rattle.message.specs.Pens.{PutOrNot, Puts};

use crate::address::Address;
use crate::muid::Muid;
use crate::pen::Pen;
use crate::refusal::Refusal;
use crate::sub_id::SubId;

/// What stands before the body.
#[derive(Clone, Copy)]
pub(crate) struct Head {
    pub sub_id: SubId,
    pub address: Address,
    pub source: Muid,
    pub destination: Muid,
}

impl Head {
    /// Puts `F0 7E` address `0D` Sub-ID `02`, source, destination.
    // Hints, here, in `pen` and in `writing`: a part whose length is known where it is put costs a few instructions.
    #[inline(always)]
    pub(crate) fn put(self, pen: &mut Pen<'_>)
        requires { pen.old.at + 14 ≤ length pen.old.out.now }
        ensures { Puts (header (code self.sub_id) self.address.byte self.source.number self.destination.number) pen.old pen.new }
    {
        pen.put(&[
            0xF0,
            0x7E,
            self.address.byte,
            0x0D,
            self.sub_id.byte(),
            0x02,
        ]);
        pen.put(&self.source.bytes());
        pen.put(&self.destination.bytes());
    }

    /// Writes the message whose body has these two parts.
    #[inline(always)]
    pub(crate) fn write(self, first: &[u8], second: &[u8], pen: &mut Pen<'_>) -> Result<(), Refusal>
        requires { length first.now + length second.now ≤ 497 }
        ensures { PutOrNot (encode (sends self.source.number self.address.byte self.sub_id self.destination.number (first.now ++ second.now))) pen.old result pen.new }
    {
        if !pen.has_room(15 + first.len() + second.len()) {
            return Err(Refusal::BufferTooSmall);
        }
        self.put(pen);
        pen.put(first);
        pen.put(second);
        pen.put(&[0xF7]);
        Ok(())
    }
}
