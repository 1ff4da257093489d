//! A layer that withholds consents.
ghost use Rattle.std.specs.Prelude.{◌≡◌, refl};
ghost use Rattle.std.proofs.Common.{◌∙◌};
ghost use Rattle.layers.specs.Holding.{held};
ghost use Rattle.layers.specs.Lawfulness.{held_lawful};
ghost use Rattle.layers.specs.Models.{pairs_of};

use crate::pairs::Pairs;
use host::Host;
use message::{Pair, Row};

/// Withholds each consent, on and off, for its pairs; in all else it is the host below.
#[derive(Drop)]
pub struct Holding<B> {
    below: B,
    pairs: Pairs,
}

impl<B> Holding<B> {
    /// The layer over a host.
    pub fn over(below: B, pairs: Pairs) -> Holding<B>
        ensures below { result.below ≡ below }
        ensures pairs { result.pairs ≡ pairs }
    {
        Holding { below, pairs }
    }

    /// The host below.
    pub fn below(&self) -> &B
        ensures { result.now ≡ self.now.below }
    {
        &self.below
    }
}

impl<B: Host> Host for Holding<B> {
    ghost listing = { λ h. B.listing h.below };

    ghost consents = { λ h. held (pairs_of h.pairs) (B.consents h.below) };

    ghost fixed = { λ h. B.fixed h.below };

    ghost lawful = { λ h. held_lawful (pairs_of h.pairs) (B.listing h.below) (B.consents h.below) (B.lawful h.below) };

    ghost keeps = { λ g h. (pairs_of g.pairs ≡ pairs_of h.pairs) × B.keeps g.below h.below };

    ghost keeps_itself = { λ h. (refl, B.keeps_itself h.below) };

    ghost keeps_on = { λ g h k a b. (a.0 ∙ b.0, B.keeps_on g.below h.below k.below a.1 b.1) };

    fn rows(&self) -> &[Row] {
        self.below.rows()
    }

    fn may_go_on(&self, pair: Pair) -> bool {
        !self.pairs.contains(pair) && self.below.may_go_on(pair)
    }

    fn may_go_off(&self, pair: Pair) -> bool {
        !self.pairs.contains(pair) && self.below.may_go_off(pair)
    }

    fn puts_off(&self, pair: Pair, other: [u8; 5]) -> bool {
        !self.pairs.contains(pair) && self.below.puts_off(pair, other)
    }

    fn is_fixed(&self) -> bool {
        self.below.is_fixed()
    }

    fn switch(&mut self, pair: Pair, on: bool) -> bool {
        !self.pairs.contains(pair) && self.below.switch(pair, on)
    }

    fn plug(&mut self, pair: Pair) -> bool {
        self.below.plug(pair)
    }

    fn pull(&mut self, pair: Pair) -> bool {
        self.below.pull(pair)
    }
}
