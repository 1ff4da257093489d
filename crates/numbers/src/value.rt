//! The own number and the other devices in one value, which is always in order.
ghost use Rattle.std.specs.Prelude.{◌≡◌, ℕ, ◌%◌, ◌<◌, ◌≤◌, true, false, [], ◌∷◌, length, ◌≢◌};
ghost use Rattle.rising.specs.Lists.{Rising};
ghost use Rattle.numbers.specs.Device.{number, Usable, Reserved, broadcast, has, all_usable, other, noted, forgotten, next, renewed, First};

use rising::{enter, find, remove};
use std::marker::Model;

// How many numbers are usable: 255 reserved ones and broadcast follow. `message` has it too:
// this crate depends on `rising` alone.
const USABLE: u32 = 268_435_200;

/// The own number, which is usable, and up to 32 other devices: rising, each once, all usable, the own never among them.
/// By a rule it is written whole on change.
#[derive(Drop)]
pub struct Numbers {
    own: u32,
    // A rule: no heap. So these are slots, and the first `count` of them are in use.
    others: [u32; 32],
    count: usize,
}

impl Model for Numbers {
    ghost use Rattle.std.specs.Prelude.{◌≤◌, take};
    ghost use Rattle.numbers.specs.Device.{Known, InOrder};

    ghost Value = { Known };

    ghost view = { λ n. record { own = n.own; listed = take n.count n.others } };

    ghost invariant = { λ n. (n.count ≤ 32) × InOrder n.own (take n.count n.others) };
}

// One up, and from the last usable number to 0.
fn following(number: u32) -> u32
    requires { Usable number }
    ensures { result ≡ next number }
{
    if number == USABLE - 1 { 0 } else { number + 1 }
}

impl Numbers {
    /// The own number is the draw's remainder by the count of usable numbers; nobody is listed.
    pub fn start(draw: u32) -> Numbers
        ensures own { result.own ≡ draw % 268435200 }
        ensures list { result.listed ≡ [] }
    {
        Numbers {
            own: draw % USABLE,
            others: [0; 32],
            count: 0,
        }
    }

    /// The own number.
    pub fn own(&self) -> u32
        ensures value { result ≡ self.now.own }
        ensures usable { Usable result }
    {
        self.own
    }

    /// The other devices, rising.
    pub fn listed(&self) -> &[u32]
        ensures value { result.now ≡ self.now.listed }
        ensures few { length result.now ≤ 32 }
        ensures up { Rising number result.now }
        ensures fit { all_usable result.now ≡ true }
        ensures apart { has self.now.own result.now ≡ false }
    {
        &self.others[..self.count]
    }

    /// Whether the number is that of a listed device.
    #[tactic(auto, using(crate::proofs::Device::has_held))]
    pub fn is_listed(&self, number: u32) -> bool
        ensures { result ≡ has number self.now.listed }
    {
        find(self.listed(), &number).is_some()
    }

    // Whether the number is the own or listed.
    fn is_taken(&self, number: u32) -> bool
        ensures { result ≡ has number (self.now.own ∷ self.now.listed) }
    {
        number == self.own || self.is_listed(number)
    }

    // Whether the number can be another device's.
    fn is_other(&self, number: u32) -> bool
        ensures { result ≡ other self.now.own number }
    {
        number < USABLE && number != self.own
    }

    /// Lists a device. The own number, one that is not usable or is listed, and a full list change nothing.
    #[tactic(auto, using(crate::proofs::Device::noted_has, crate::proofs::Device::noted_others))]
    pub fn note(&mut self, number: u32)
        ensures own { self.new.own ≡ self.old.own }
        ensures list { self.new.listed ≡ noted self.old.own number self.old.listed }
        ensures arrives { Usable number → (number ≢ self.old.own) → length self.old.listed < 32 → has number self.new.listed ≡ true }
        ensures others { (m : ℕ) → (m ≢ number) → has m self.new.listed ≡ has m self.old.listed }
    {
        if self.is_other(number) {
            let mut others = self.others;
            let count = enter(&mut others, self.count, number);
            *self = Numbers {
                own: self.own,
                others,
                count,
            };
        }
    }

    /// Unlists a device. A number that is not listed changes nothing.
    #[tactic(auto, using(crate::proofs::Device::forgotten_gone, crate::proofs::Device::forgotten_others))]
    pub fn forget(&mut self, number: u32)
        ensures own { self.new.own ≡ self.old.own }
        ensures list { self.new.listed ≡ forgotten number self.old.listed }
        ensures gone { has number self.new.listed ≡ false }
        ensures others { (m : ℕ) → (m ≢ number) → has m self.new.listed ≡ has m self.old.listed }
    {
        let mut others = self.others;
        let count = remove(&mut others, self.count, &number);
        *self = Numbers {
            own: self.own,
            others,
            count,
        };
    }

    /// Chooses a new own number: the first one from the draw's remainder on, and from the last usable number on to 0, that
    /// is neither listed nor the own until then. The list stays.
    pub fn renew(&mut self, draw: u32)
        ensures own { self.new.own ≡ renewed self.old.own self.old.listed draw }
        ensures list { self.new.listed ≡ self.old.listed }
        ensures first { First (self.old.own ∷ self.old.listed) (draw % 268435200) self.new.own }
        ensures fresh { self.new.own ≢ self.old.own }
        ensures unlisted { has self.new.own self.new.listed ≡ false }
        ensures usable { Usable self.new.own }
        ensures unreserved { Reserved self.new.own → ⊥ }
        ensures single { self.new.own ≢ broadcast }
    {
        let Numbers { others, count, .. } = *self;
        let mut own = draw % USABLE;
        // A loop: `find` over the numbers from here on would answer an Option that is never None.
        while self.is_taken(own) {
            own = following(own);
        }
        *self = Numbers { own, others, count };
    }
}

#[cfg(test)]
mod tests {
    use super::*;

    #[test]
    fn the_draw_wraps(rt: HostRuntime) {
        assert_eq!(rt; Numbers::start(268_435_200).own(), 0);
        assert_eq!(rt; Numbers::start(268_435_199).own(), 268_435_199);
        assert_eq!(rt; Numbers::start(4_294_967_295).own(), 4_095);
    }

    #[test]
    fn renewing_goes_round(rt: HostRuntime) {
        let mut numbers = Numbers::start(268_435_200);
        numbers.note(268_435_199);
        numbers.renew(268_435_199);
        assert_eq!(rt; numbers.own(), 1, "the last is listed, and 0 was the own");
        numbers.renew(268_435_199);
        assert_eq!(rt; numbers.own(), 0, "0 is free again");
        assert!(rt; numbers.is_listed(268_435_199));
    }

    #[test]
    fn what_is_not_listed(rt: HostRuntime) {
        let mut numbers = Numbers::start(5);
        numbers.note(5);
        numbers.note(268_435_200);
        numbers.note(268_435_455);
        numbers.note(7);
        numbers.note(7);
        numbers.forget(6);
        assert_eq!(rt; numbers.listed().len(), 1);
        assert!(rt; numbers.is_listed(7));
        assert_eq!(rt; numbers.own(), 5);
    }

    #[test]
    fn a_freed_place_is_used_again(rt: HostRuntime) {
        let mut numbers = Numbers::start(100);
        for device in 0..32 {
            numbers.note(device);
        }
        assert_eq!(rt; numbers.listed().len(), 32);
        numbers.note(32);
        assert!(rt; !numbers.is_listed(32), "the list is full");
        numbers.forget(16);
        assert_eq!(rt; numbers.listed().len(), 31);
        numbers.note(33);
        assert!(rt; numbers.is_listed(33) && !numbers.is_listed(16));
        assert_eq!(rt; numbers.listed().len(), 32);
    }
}
