//! Answers of one or two messages.
ghost use Rattle.std.specs.Prelude.{◌≡◌, ℕ, ◌+◌, ◌≤◌, List, [], ◌∷◌, length, Ok};
ghost use Rattle.message.specs.Messages.{encode};
ghost use Rattle.message.specs.Sending.{discover, invalidate, meant};
ghost use Rattle.message.specs.Writing.{Put};
ghost use Rattle.message.specs.Pens.{Puts, Room};
ghost use Rattle.responder.specs.Steps.{bytes, Sends};

use crate::calls::ROOM;
use message::{Identity, Muid, Pen, Sent};

/// Puts a message of known length where there is room for it.
pub(crate) fn send(sent: Sent, own: Muid, pen: &mut Pen<'_>)
    requires { Room (encode (meant own.number sent)) pen.old }
    ensures { Puts (encode (meant own.number sent)) pen.old pen.new }
{
    sent.write(own, pen).unwrap();
}

/// One message.
// Each answer, here and in the three other functions that write one, makes its pen: with one lent by `act`, contracts would speak
// of a pen before and after in place of bytes and a length.
pub(crate) fn write_one(sent: Sent, own: Muid, answer: &mut [u8; ROOM]) -> usize
    ensures { Sends (bytes (meant own.number sent ∷ [])) answer.old (Ok result) answer.new }
{
    let mut pen = Pen { out: answer, at: 0 };
    send(sent, own, &mut pen);
    pen.at
}

/// An Invalidate MUID for the number that is given up, from it, and a Discovery from the new one.
pub(crate) fn write_new_number(
    identity: Identity,
    old: Muid,
    own: Muid,
    answer: &mut [u8; ROOM],
) -> usize
    ensures { Sends (bytes (invalidate old.number old.number ∷ discover identity own.number ∷ [])) answer.old (Ok result) answer.new }
{
    let mut pen = Pen { out: answer, at: 0 };
    send(Sent::InvalidateMuid { target: old }, old, &mut pen);
    send(Sent::Discovery { identity }, own, &mut pen);
    pen.at
}
