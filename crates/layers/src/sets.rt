//! A layer that keeps at most one row of a set on at an address.
ghost use Rattle.std.specs.Prelude.{◌≡◌, true, not, ◌&&◌, length, refl};
ghost use Rattle.std.specs.List.{list_any};
ghost use Rattle.std.proofs.Common.{◌∙◌};
ghost use Rattle.std.specs.Str.{bytes_eq};
ghost use Rattle.host.specs.Rows.{look};
ghost use Rattle.host.specs.Hosts.{differs};
ghost use Rattle.layers.specs.Sets.{rival, set_on};
ghost use Rattle.layers.specs.Calls.{sets_consents, SetsSwitched, SetsPlugged, SetsPulled, SetsKeep, StaysOne};
ghost use Rattle.layers.specs.Clearing.{Cleared};
ghost use Rattle.layers.specs.Lawfulness.{setted_lawful};
ghost use Rattle.layers.specs.Models.{members_of};

use crate::members::Members;
use host::{Host, find_row};
use message::{Pair, Row};

/// Consents to an on exactly if the host below does and also consents to the off of each other row that is on in that set at
/// that address, and puts these off; in all else it is the host below.
// Not one type with `Holding`: a `Layer<B, L>` with a host below and a list `L` would have one `over` and one `below`, of a line
// each. The two impls of `Host` would stay, one for each list, and speak of a list where now the fields say members and pairs.
#[derive(Drop)]
pub struct Sets<B> {
    below: B,
    members: Members,
}

impl<B> Sets<B> {
    /// The layer over a host.
    pub fn over(below: B, members: Members) -> Sets<B>
        ensures below { result.below ≡ below }
        ensures members { result.members ≡ members }
    {
        Sets { below, members }
    }

    /// The host below.
    pub fn below(&self) -> &B
        ensures { result.now ≡ self.now.below }
    {
        &self.below
    }
}

impl<B: Host> Sets<B> {
    // Whether the row is listed and off.
    fn is_off(&self, pair: Pair) -> bool
        ensures { result ≡ differs (look (B.listing self.now.below) pair.address pair.id) true }
    {
        let rows = self.below.rows();
        find_row(rows, pair).is_some_and(|k| !rows[k].on)
    }

    // Whether the host below keeps a rival of the row on.
    fn is_blocked(&self, pair: Pair) -> bool
        ensures { result ≡ list_any (λ x. rival (members_of self.now.members) pair.address pair.id x && not ((B.consents self.now.below).off pair.address x.id)) (B.listing self.now.below) }
    {
        let rows = self.below.rows();
        rows.iter().any(|row| self.members.is_rival(pair, *row)
            && !self.below.may_go_off(row.pair()))
    }

    // Whether the row may go on: the host below consents to it, and to the off of its rivals.
    fn consents_on(&self, pair: Pair) -> bool
        ensures { result ≡ set_on (members_of self.now.members) (B.listing self.now.below) (B.consents self.now.below) pair.address pair.id }
    {
        self.below.may_go_on(pair) && !self.is_blocked(pair)
    }

    // Whether the other ID is that of a rival.
    fn names_rival(&self, pair: Pair, other: [u8; 5]) -> bool
        ensures { result ≡ list_any (λ x. rival (members_of self.now.members) pair.address pair.id x && bytes_eq other x.id) (B.listing self.now.below) }
    {
        let rows = self.below.rows();
        rows.iter()
            .any(|row| self.members.is_rival(pair, *row) && other == row.id)
    }

    // Puts the rivals of the row off below.
    // `same`, here and in each call that changes rows, compares before and after, which no ghost field or model can say.
    fn put_off(&mut self, pair: Pair)
        requires { set_on (members_of self.old.members) (B.listing self.old.below) (B.consents self.old.below) pair.address pair.id ≡ true }
        ensures done { Cleared (members_of self.old.members) (B.listing self.old.below) (B.consents self.old.below) (B.fixed self.old.below) pair.address pair.id (length (B.listing self.old.below)) (B.listing self.new.below) (B.consents self.new.below) (B.fixed self.new.below) }
        ensures same { SetsKeep B.keeps self.old self.new }
    {
        let count = self.below.rows().len();
        // by index: an iterator would hold the rows that each switch below changes
        for k in 0..count {
            let row = self.below.rows()[k];
            if self.members.is_rival(pair, row) {
                let _ = self.below.switch(row.pair(), false);
            }
        }
    }

    // Switches a row on, once its rivals are off.
    fn put_on(&mut self, pair: Pair) -> bool
        requires consents { set_on (members_of self.old.members) (B.listing self.old.below) (B.consents self.old.below) pair.address pair.id ≡ true }
        requires moves { differs (look (B.listing self.old.below) pair.address pair.id) true ≡ true }
        ensures does { SetsSwitched B.listing B.consents B.fixed self.old pair.address pair.id true self.new result }
        ensures same { SetsKeep B.keeps self.old self.new }
    {
        self.put_off(pair);
        self.below.switch(pair, true)
    }

    // Switches a row on, if the layer consents and the row is off.
    fn switch_on(&mut self, pair: Pair) -> bool
        ensures does { SetsSwitched B.listing B.consents B.fixed self.old pair.address pair.id true self.new result }
        ensures same { SetsKeep B.keeps self.old self.new }
    {
        self.consents_on(pair) && self.is_off(pair) && self.put_on(pair)
    }
}

impl<B: Host> Host for Sets<B> {
    ghost listing = { λ h. B.listing h.below };

    ghost consents = { λ h. sets_consents B.listing B.consents h };

    ghost fixed = { λ h. B.fixed h.below };

    ghost lawful = { λ h. setted_lawful (members_of h.members) (B.listing h.below) (B.consents h.below) (B.lawful h.below) };

    ghost keeps = { λ g h. SetsKeep B.keeps g h };

    ghost keeps_itself = { λ h. (refl, B.keeps_itself h.below) };

    ghost keeps_on = { λ g h k a b. (a.0 ∙ b.0, B.keeps_on g.below h.below k.below a.1 b.1) };

    fn rows(&self) -> &[Row] {
        self.below.rows()
    }

    fn may_go_on(&self, pair: Pair) -> bool {
        self.consents_on(pair)
    }

    fn may_go_off(&self, pair: Pair) -> bool {
        self.below.may_go_off(pair)
    }

    fn puts_off(&self, pair: Pair, other: [u8; 5]) -> bool {
        self.consents_on(pair)
            && (self.below.puts_off(pair, other) || self.names_rival(pair, other))
    }

    fn is_fixed(&self) -> bool {
        self.below.is_fixed()
    }

    // Beside what a host promises, the three calls that change rows promise that a set with at most one row on at an address
    // never comes to have two.
    fn switch(&mut self, pair: Pair, on: bool) -> bool
        ensures does { SetsSwitched B.listing B.consents B.fixed self.old pair.address pair.id on self.new result }
        ensures same { SetsKeep B.keeps self.old self.new }
        ensures one { StaysOne B.listing self.old self.new }
    {
        if on {
            self.switch_on(pair)
        } else {
            self.below.switch(pair, false)
        }
    }

    fn plug(&mut self, pair: Pair) -> bool
        ensures does { SetsPlugged B.listing B.consents B.fixed self.old pair.address pair.id self.new result }
        ensures same { SetsKeep B.keeps self.old self.new }
        ensures one { StaysOne B.listing self.old self.new }
    {
        self.below.plug(pair)
    }

    fn pull(&mut self, pair: Pair) -> bool
        ensures does { SetsPulled B.listing B.consents B.fixed self.old pair.address pair.id self.new result }
        ensures same { SetsKeep B.keeps self.old self.new }
        ensures one { StaysOne B.listing self.old self.new }
    {
        self.below.pull(pair)
    }
}
