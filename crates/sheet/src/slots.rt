//! Entries in fixed slots, of which the first `count` are in use: no heap, by a rule. `layers::Entries` is made at once of a list
//! that it judges; these grow by one, and each word is judged before.
ghost use Rattle.std.specs.Prelude.{◌≡◌, ◌<◌, nat_lt, [], ◌∷◌, ◌++◌, length};

use std::marker::Model;

/// Up to `N` entries of one kind, in the order in which they came. A clause sees just those in use.
#[derive(Drop)]
pub struct Slots<T, const N: usize> {
    slots: [T; N],
    count: usize,
}

impl<T, const N: usize> Model for Slots<T, N> {
    ghost use Rattle.std.specs.Prelude.{◌≡◌, ◌≤◌, List, length, take};

    ghost Value = { List T };

    ghost view = { λ s. take s.count s.slots };

    ghost invariant = { λ s. (s.count ≤ N) × (length s.slots ≡ N) };
}

impl<T: Copy + Default, const N: usize> Slots<T, N> {
    // No entry yet: a blank lies in every slot.
    pub(crate) fn new() -> Slots<T, N>
        ensures { result ≡ [] }
    {
        Slots {
            slots: [T::default(); N],
            count: 0,
        }
    }

    pub(crate) fn as_slice(&self) -> &[T]
        ensures { result.now ≡ self.now }
    {
        let all = &self.slots[..];
        &all[..self.count]
    }

    // Whether there is a slot for one more.
    pub(crate) fn has_room(&self) -> bool
        ensures { result ≡ nat_lt (length self.now) N }
    {
        self.count < N
    }

    pub(crate) fn push(&mut self, entry: T)
        requires { length self.old < N }
        ensures { self.new ≡ self.old ++ entry ∷ [] }
    {
        self.slots[self.count] = entry;
        self.count += 1;
    }
}
