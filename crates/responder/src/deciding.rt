//! What to do with a message: decisions that change nothing.
ghost use Rattle.std.specs.Prelude.{◌≡◌, ℕ, ◌<◌, ◌≤◌, true, false, ◌||◌, List, [], ◌∷◌, length, if◌then◌else◌, MatchResult, ◌==◌, nat_eq, nat_le, nat_lt, slice_index};
ghost use Rattle.message.specs.Messages.{Fields, fields, framed};
ghost use Rattle.message.specs.Kinds.{too_short};
ghost use Rattle.message.specs.Reading.{kind_of};
ghost use Rattle.message.specs.Shapes.{Shaped};
ghost use Rattle.message.specs.declared.identity.Identity.{Identity};
ghost use Rattle.message.specs.declared.row.Row.{Row};
ghost use Rattle.host.specs.Rows.{has as listed};
ghost use Rattle.message.specs.Sending.{discover, discover_reply, invalidate};
ghost use Rattle.numbers.specs.Device.{forgotten, has, noted, renewed};
ghost use Rattle.responder.specs.Actions.{action_plan, decided, header_of, sorted, Shows};
ghost use Rattle.responder.specs.Inquiries.{fault, for_us_by, supported, target};
ghost use Rattle.responder.specs.Plans.{denying, inquiring, opened, refuse, send, turn};

use crate::action::{Action, Sorted};
use crate::listing::Listing;
use message::{
    Address, Content, Message, Muid, NakStatus, Pair, Refusal, Sent, SubId, least_length,
    muid_number, read,
};

/// Whether a message is heard, and then which, or is an inquiry. One that is heard is refused if of version 0 or too short.
// A rule of the project: inquiries are told apart by a match on the Sub-ID, with ranges and guards on version and length.
fn sort(sub: u8, version: u8, bytes: usize) -> Result<Sorted, Refusal>
    requires { 15 ≤ bytes }
    ensures { result ≡ sorted sub version bytes }
{
    match sub {
        0x71 if version > 0 && bytes >= least_length(sub, version) => Ok(Sorted::Reply),
        0x7E if version > 0 && bytes >= 19 => Ok(Sorted::Invalidation),
        0x71 | 0x7E => Err(Refusal::NotUnderstood),
        0x21 | 0x24..=0x27 | 0x29 | 0x2F | 0x31 | 0x35 | 0x37 if version > 0 => Ok(Sorted::Heard),
        0x39 | 0x3F | 0x41 | 0x43 | 0x44 | 0x73 | 0x7D..=0x7F if version > 0 => Ok(Sorted::Heard),
        0x21 | 0x24..=0x27 | 0x29 | 0x2F | 0x31 | 0x35 | 0x37 => Err(Refusal::NotUnderstood),
        0x39 | 0x3F | 0x41 | 0x43 | 0x44 | 0x73 | 0x7D..=0x7F => Err(Refusal::NotUnderstood),
        _ => Ok(Sorted::Inquiry),
    }
}

/// Whether a message is meant for the own number, or for every device and of a kind that may be.
fn is_for_us(own: u32, destination: u32, sub: u8) -> bool
    ensures { result ≡ for_us_by own destination sub }
{
    match SubId::try_from(sub) {
        _ if destination == own => true,
        Ok(
            SubId::ProfileEnabledReport
            | SubId::ProfileDisabledReport
            | SubId::ProfileAddedReport
            | SubId::ProfileRemovedReport
            | SubId::Discovery
            | SubId::InvalidateMuid,
        ) => destination == Muid::broadcast().number,
        _ => false,
    }
}

/// Whether an inquiry of that Sub-ID is answered.
fn is_supported(sub: u8) -> bool
    ensures { result ≡ has sub supported }
{
    matches!(
        SubId::try_from(sub),
        Ok(SubId::ProfileInquiry | SubId::SetProfileOn | SubId::SetProfileOff | SubId::Discovery)
    )
}

/// The Output Path Id of a Discovery, which version 1 does not have.
fn path_of(version: u8, body: &[u8]) -> u8
    ensures { result ≡ (if nat_le version 1 then 0x00 else slice_index body.now 16) }
{
    match body.get(16) {
        Some(path) if version > 1 => *path,
        _ => 0x00,
    }
}

/// A message that asks something, who asks, and the rows that are listed.
// `m` is the message that was read, as `message` is the name of its bytes.
#[derive(Clone, Copy)]
struct Inquiry<'a> {
    listing: Listing<'a>,
    from: Muid,
    m: Message<'a>,
    ghost asker: { from.number ≡ m.source },
}

impl Inquiry<'_> {
    /// A NAK for an inquiry that fails a check, or a refusal where the inquiry is a Discovery to every device.
    fn deny(self, status: NakStatus) -> Result<Action, Refusal>
        ensures { (d : Identity) (own : ℕ) (others : List ℕ) (l : List Row) (draw : ℕ) → decided d own others l draw result ≡ denying d own others l status (header_of self.entry.m self.entry.from.number) }
    {
        let m = self.m;
        let is_discovery = m.sub_id == SubId::Discovery.byte();
        if is_discovery && m.destination == Muid::broadcast().number {
            return Err(Refusal::NotUnderstood);
        }
        Ok(Action::Send(Sent::Nak {
            to: self.from,
            address: Address::new(m.address).unwrap_or(Address::function_block()),
            sub_id: m.sub_id,
            status,
        }))
    }

    /// What to do where it asks to switch a row.
    fn switch(self, address: Address, id: &[u8], on: bool) -> Result<Action, Refusal>
        requires { length id.now ≡ 5 }
        ensures { (d : Identity) (own : ℕ) (others : List ℕ) (draw : ℕ) → decided d own others self.entry.listing.rows.now draw result ≡ (if listed self.entry.listing.rows.now address.byte id.now then turn address.byte id.now on else denying d own others self.entry.listing.rows.now NakStatus.NoSuchProfile (header_of self.entry.m self.entry.from.number)) }
    {
        let id = <[u8; 5]>::try_from(id).unwrap();
        match self.listing.find(Pair::new(address.byte, id)) {
            Some(named) => Ok(Action::Switch { named, on }),
            None => self.deny(NakStatus::NoSuchProfile),
        }
    }

    /// What to do where it is a Discovery, which is for the whole device.
    fn discovered(self, body: &[u8]) -> Result<Action, Refusal>
        ensures { (d : Identity) (own : ℕ) (others : List ℕ) (l : List Row) (draw : ℕ) → decided d own others l draw result ≡ (if nat_eq self.entry.m.address 0x7F then send (discover_reply d own self.entry.from.number (if nat_le self.entry.m.version 1 then 0x00 else slice_index body.now 16) ∷ []) own (noted own self.entry.from.number others) else denying d own others l NakStatus.Malformed (header_of self.entry.m self.entry.from.number)) }
    {
        // By its byte, in hexadecimal like all bytes of messages: `Address::function_block().byte` would be no plainer.
        if self.m.address != 0x7F {
            return self.deny(NakStatus::Malformed);
        }
        Ok(Action::Discovered {
            to: self.from,
            path: path_of(self.m.version, body),
        })
    }

    /// What to do with it.
    fn decide(self) -> Result<Action, Refusal>
        requires { Shaped (kind_of self.m.content) }
        ensures { (d : Identity) (own : ℕ) (others : List ℕ) (draw : ℕ) (q : Fields) → Shows self.entry.m q → decided d own others self.entry.listing.rows.now draw result ≡ inquiring d own others self.entry.listing.rows.now (fault self.entry.listing.rows.now q) q }
    {
        let m = self.m;
        if m.version == 0 {
            return self.deny(NakStatus::WrongVersion);
        }
        if !is_supported(m.sub_id) {
            return self.deny(NakStatus::NotSupported);
        }
        let Some(address) = Address::new(m.address) else {
            return self.deny(NakStatus::Malformed);
        };
        match m.content {
            Content::ProfileInquiry => Ok(Action::List {
                to: self.from,
                address,
            }),
            Content::SetOn(id) => self.switch(address, id, true),
            Content::SetOff(id) => self.switch(address, id, false),
            Content::Discovery(body) => self.discovered(body),
            _ => self.deny(NakStatus::Malformed),
        }
    }
}

/// What to do where a MUID was invalidated.
fn invalidated(own: u32, m: Message<'_>) -> Action
    ensures { (d : Identity) (others : List ℕ) (l : List Row) (draw : ℕ) (q : Fields) → Shows m.entry q → q.sub ≡ 0x7E → (q.version == 0) ≡ false → too_short q ≡ false → action_plan d own others l draw result ≡ (if nat_eq (target q) own then send (discover d (renewed own others draw) ∷ []) (renewed own others draw) others else send [] own (forgotten (target q) others)) }
{
    // The `else` cannot be: to have that proved would make `requires` of the three facts that come before the plan.
    let Content::InvalidateMuid([a, b, c, d]) = m.content else {
        return Action::Nothing;
    };
    let target = muid_number(*a, *b, *c, *d);
    if target == own {
        Action::ChooseNumber
    } else {
        Action::Forget(target)
    }
}

/// What to do with a message from the own number.
fn clash(sub: u8) -> Result<Action, Refusal>
    ensures { (d : Identity) (own : ℕ) (others : List ℕ) (l : List Row) (draw : ℕ) → decided d own others l draw result ≡ (if nat_eq sub 0x70 || sub == 0x71 then send (invalidate own own ∷ discover d (renewed own others draw) ∷ []) (renewed own others draw) others else refuse Refusal.SourceNotUsable) }
{
    match SubId::try_from(sub) {
        Ok(SubId::Discovery | SubId::ReplyToDiscovery) => Ok(Action::GiveUpNumber),
        _ => Err(Refusal::SourceNotUsable),
    }
}

/// The source of a message, which has to be a number that a device may have.
fn usable_source(number: u32) -> Result<Muid, Refusal>
    ensures { MatchResult result (λ s. (s.number ≡ number) × (nat_lt number 268435200 ≡ true)) (λ e. (e ≡ Refusal.SourceNotUsable) × (nat_lt number 268435200 ≡ false)) }
{
    Muid::new(number)
        .filter(|source| source.is_usable())
        .ok_or(Refusal::SourceNotUsable)
}

/// What to do with a message, or why it is refused.
// The own number is a plain one, since it is only compared with those of messages.
pub(crate) fn decide(listing: Listing<'_>, own: u32, message: &[u8]) -> Result<Action, Refusal>
    ensures { (d : Identity) (others : List ℕ) (draw : ℕ) → decided d own others listing.entry.rows.now draw result ≡ (if framed message.now then opened d own others listing.entry.rows.now (fields message.now) draw else refuse Refusal.NotFramed) }
{
    let m = read(message)?;
    let from = usable_source(m.source)?;
    if m.source == own {
        return clash(m.sub_id);
    }
    if !is_for_us(own, m.destination, m.sub_id) {
        return Err(Refusal::NotForUs);
    }
    match sort(m.sub_id, m.version, message.len())? {
        Sorted::Reply => Ok(Action::Note(from)),
        Sorted::Invalidation => Ok(invalidated(own, m)),
        Sorted::Heard => Ok(Action::Nothing),
        Sorted::Inquiry => Inquiry { listing, from, m }.decide(),
    }
}
