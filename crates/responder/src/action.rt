//! What is done with a message.
ghost use Rattle.std.specs.Prelude.{◌≡◌, ℕ, false, MatchOption};
ghost use Rattle.message.specs.Rows.{pair_ranged, paired};
ghost use Rattle.message.specs.Sending.{meant, report};

use message::{Address, Muid, Pair, ProfileId, Sent};

/// A row by its address and Profile ID, both in range.
#[derive(Clone, Copy)]
pub struct Named {
    pub address: Address,
    pub id: ProfileId,
}

impl Named {
    /// The row that a pair names, unless the pair is out of range.
    // An Option and no `TryFrom`: an error would only be thrown away.
    pub fn new(pair: Pair) -> Option<Named>
        ensures { MatchOption result (pair_ranged pair ≡ false) (λ n. (n.address.byte ≡ pair.address) × (n.id.bytes ≡ pair.id)) }
    {
        Some(Named {
            address: Address::new(pair.address)?,
            id: ProfileId::new(pair.id)?,
        })
    }

    /// What names it.
    // No `From` for `Pair`: `Pair::from(named)` is no plainer than `named.pair()`.
    pub fn pair(self) -> Pair
        ensures { result ≡ paired self.address.byte self.id.bytes }
    {
        Pair::new(self.address.byte, self.id.bytes)
    }

    /// The report that it is on, or off.
    pub fn report(self, on: bool) -> Sent
        ensures { (own : ℕ) → meant own result ≡ report own self.address.byte self.id.bytes on }
    {
        let Named { address, id } = self;
        if on {
            Sent::Enabled { address, id }
        } else {
            Sent::Disabled { address, id }
        }
    }
}

/// What is to be done with a message that is accepted.
#[derive(Clone, Copy)]
pub enum Action {
    /// Another device has the own number.
    GiveUpNumber,
    /// The own number was invalidated.
    ChooseNumber,
    /// A device answered a Discovery.
    Note(Muid),
    /// Another device's number was invalidated.
    // A plain number: unlisting asks for none in range, so a `Muid` would only add a case that cannot be.
    Forget(u32),
    /// Nothing follows a message that is only heard.
    // A case and no Option around actions: `act` would only match twice.
    Nothing,
    /// One message is sent, as the NAK for an inquiry that fails a check.
    Send(Sent),
    /// A device makes itself known.
    Discovered { to: Muid, path: u8 },
    /// A device asks for the profiles at an address.
    List { to: Muid, address: Address },
    /// A device asks to switch a row.
    Switch { named: Named, on: bool },
}

/// How a message for us is sorted, before what it asks.
// A rule of the project: `sort` tells messages apart, and this is what it tells.
#[derive(Clone, Copy)]
pub enum Sorted {
    /// A reply to a Discovery.
    Reply,
    /// An Invalidate MUID.
    Invalidation,
    /// Any other message that is heard.
    Heard,
    /// An inquiry.
    Inquiry,
}
