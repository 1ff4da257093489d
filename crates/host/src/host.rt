//! What a host is to all code above it.
ghost use Rattle.std.specs.Prelude.{◌≡◌, ℕ, Bool, List};
ghost use Rattle.host.specs.Hosts.{Consents, Lawful, Switched, Plugged, Pulled};
ghost use Rattle.message.specs.declared.row.Row.{Row};

use message::{Pair, Row};

/// A host lists the rows of an instrument, consents to switches, and says whether its rows are fixed.
pub trait Host {
    /// The rows, in their order.
    ghost listing: { Self → List Row };

    /// Which switches the host consents to.
    ghost consents: { Self → Consents };

    /// Whether rows can be neither plugged nor pulled.
    ghost fixed: { Self → Bool };

    /// The listing and the consents are as the rules of hosts ask.
    ghost lawful: { (h : Self) → Lawful (listing h) (consents h) };

    /// What no call changes, as a layer's own lists.
    ghost keeps: { Self → Self → Type 0 };

    ghost keeps_itself: { (h : Self) → keeps h h };

    ghost keeps_on: { (g h k : Self) → keeps g h → keeps h k → keeps g k };

    /// The rows.
    fn rows(&self) -> &[Row]
        ensures { result.now ≡ listing self.now };

    /// Whether the host consents to the row's going on.
    fn may_go_on(&self, pair: Pair) -> bool
        ensures { result ≡ (consents self.now).on pair.address pair.id };

    /// Whether the host consents to the row's going off.
    fn may_go_off(&self, pair: Pair) -> bool
        ensures { result ≡ (consents self.now).off pair.address pair.id };

    /// Whether the consent to the row's going on names another ID at its address, which then goes off.
    fn puts_off(&self, pair: Pair, other: [u8; 5]) -> bool
        ensures { result ≡ (consents self.now).names pair.address pair.id other };

    /// Whether the rows are fixed.
    fn is_fixed(&self) -> bool
        ensures { result ≡ fixed self.now };

    /// Switches a row on or off, if the host consents, and tells whether a row changed.
    fn switch(&mut self, pair: Pair, on: bool) -> bool
        ensures does { Switched (listing self.old) (consents self.old) (fixed self.old) pair.address pair.id on (listing self.new) (consents self.new) (fixed self.new) result }
        ensures same { keeps self.old self.new };

    /// Enters an absent row as off, if there is a place for it, and tells whether a row changed.
    fn plug(&mut self, pair: Pair) -> bool
        ensures does { Plugged (listing self.old) (consents self.old) (fixed self.old) pair.address pair.id (listing self.new) (consents self.new) (fixed self.new) result }
        ensures same { keeps self.old self.new };

    /// Removes a row that is off, and tells whether a row changed.
    fn pull(&mut self, pair: Pair) -> bool
        ensures does { Pulled (listing self.old) (consents self.old) (fixed self.old) pair.address pair.id (listing self.new) (consents self.new) (fixed self.new) result }
        ensures same { keeps self.old self.new };
}
