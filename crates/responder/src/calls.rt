//! The calls of a responder.
ghost use Rattle.std.specs.Prelude.{◌≡◌, ℕ, ◌%◌, ◌≤◌, [], length, Ok};
ghost use Rattle.numbers.specs.Model.{own_of, listed_of};
ghost use Rattle.responder.specs.Actions.{action_plan};
ghost use Rattle.responder.specs.Models.{state_of};
ghost use Rattle.responder.specs.Plans.{announcing, taking};
ghost use Rattle.responder.specs.Steps.{outcome, Done, Rest, Turned};

use crate::action::{Action, Named};
use crate::deciding::decide;
use crate::listing::Listing;
use crate::replying::Replies;
use crate::reporting::Reports;
use crate::responder::Responder;
use crate::sending::{write_new_number, write_one};
use host::Host;
use message::{Identity, Muid, Refusal, Sent};
use numbers::Numbers;

/// The least answer buffer.
pub(crate) const ROOM: usize = 1024;

// `does`, `rest` and `same` stand in each call: they compare before and after, which no ghost field or model can say.
impl<P: Host> Responder<P> {
    /// A responder over a host, with the own number that the draw gives. Nobody is listed.
    pub fn start(host: P, identity: Identity, draw: u32) -> Responder<P>
        ensures host { result.host ≡ host }
        ensures identity { result.identity ≡ identity }
        ensures own { (state_of result).own ≡ draw % 268435200 }
        ensures others { (state_of result).others ≡ [] }
    {
        Responder {
            host,
            identity,
            numbers: Numbers::start(draw),
        }
    }

    /// The own MUID.
    fn own(&self) -> Muid
        ensures { result.number ≡ own_of self.now.numbers }
    {
        Muid::new(self.numbers.own()).unwrap()
    }

    /// Writes a Discovery from the own number, by which other devices learn of this one.
    pub fn announce(&self, answer: &mut [u8]) -> Result<usize, Refusal>
        ensures does { Done P.Host.listing P.Host.consents P.Host.fixed P.Host.keeps (announcing self.now.identity (own_of self.now.numbers) (listed_of self.now.numbers) (P.Host.listing self.now.host) (length answer.old)) (state_of self.now) (outcome result answer.new) (state_of self.now) }
        ensures rest { Rest result answer.old answer.new }
    {
        let room = answer
            .first_chunk_mut::<ROOM>()
            .ok_or(Refusal::BufferTooSmall)?;
        let identity = self.identity;
        Ok(write_one(Sent::Discovery { identity }, self.own(), room))
    }

    /// Asks the host to switch a row, and writes the reports of what follows.
    fn switch(&mut self, named: Named, on: bool, answer: &mut [u8; ROOM]) -> usize
        ensures does { Turned P.Host.listing P.Host.consents P.Host.fixed P.Host.keeps named.address.byte named.id.bytes on (state_of self.old) (outcome (Ok result) answer.new) (state_of self.new) }
        ensures rest { Rest (Ok result) answer.old answer.new }
        ensures same { self.new.identity ≡ self.old.identity }
    {
        let own = self.own();
        let listed = Listing::of(&self.host);
        // a copy in fixed memory, with its length beside it, since the host's rows change
        let count = listed.rows.len();
        let copy = listed.copy();
        let _ = self.host.switch(named.pair(), on);
        let before = Listing {
            rows: &copy[0..count],
        };
        let after = Listing::of(&self.host);
        let reports = Reports {
            before,
            after,
            named,
            own,
        };
        reports.write(answer)
    }

    /// Does what was decided.
    fn act(&mut self, action: Action, draw: u32, answer: &mut [u8; ROOM]) -> usize
        ensures does { Done P.Host.listing P.Host.consents P.Host.fixed P.Host.keeps (action_plan self.old.identity (own_of self.old.numbers) (listed_of self.old.numbers) (P.Host.listing self.old.host) draw action) (state_of self.old) (outcome (Ok result) answer.new) (state_of self.new) }
        ensures rest { Rest (Ok result) answer.old answer.new }
        ensures same { self.new.identity ≡ self.old.identity }
    {
        let own = self.own();
        let identity = self.identity;
        match action {
            Action::GiveUpNumber => {
                self.numbers.renew(draw);
                write_new_number(identity, own, self.own(), answer)
            }
            Action::ChooseNumber => {
                self.numbers.renew(draw);
                write_one(Sent::Discovery { identity }, self.own(), answer)
            }
            Action::Note(from) => {
                self.numbers.note(from.number);
                0
            }
            Action::Forget(number) => {
                self.numbers.forget(number);
                0
            }
            Action::Nothing => 0,
            Action::Send(sent) => write_one(sent, own, answer),
            Action::Discovered { to, path } => {
                self.numbers.note(to.number);
                let reply = Sent::DiscoveryReply { to, identity, path };
                write_one(reply, own, answer)
            }
            Action::List { to, address } => {
                let listing = Listing::of(&self.host);
                Replies { listing, own, to }.write(address, answer)
            }
            Action::Switch { named, on } => self.switch(named, on, answer),
        }
    }

    /// Takes a message that came, and writes the answer to it, if it gets one.
    pub fn take(&mut self, message: &[u8], draw: u32, answer: &mut [u8]) -> Result<usize, Refusal>
        ensures does { Done P.Host.listing P.Host.consents P.Host.fixed P.Host.keeps (taking self.old.identity (own_of self.old.numbers) (listed_of self.old.numbers) (P.Host.listing self.old.host) (length answer.old) message.now draw) (state_of self.old) (outcome result answer.new) (state_of self.new) }
        ensures rest { Rest result answer.old answer.new }
        ensures same { self.new.identity ≡ self.old.identity }
    {
        let room = answer
            .first_chunk_mut::<ROOM>()
            .ok_or(Refusal::BufferTooSmall)?;
        let own = self.own();
        let action = decide(Listing::of(&self.host), own.number, message)?;
        Ok(self.act(action, draw, room))
    }
}
