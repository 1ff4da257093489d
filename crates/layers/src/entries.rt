//! The entries of a layer's own list, always in order.
ghost use Rattle.std.specs.Prelude.{◌≡◌, ◌≤◌, ⊤, Bool, true, length, take};
ghost use Rattle.std.specs.List.{list_all};
ghost use Rattle.rising.specs.Lists.{Rising};
ghost use Rattle.message.specs.Rows.{pair_ranged};
ghost use Rattle.layers.specs.Lists.{judged_entries, Made};

use message::{Pair, Refusal};
use rising::{Keyed, rises};
use std::alloc::AllocError;

/// The most entries of a layer's list.
pub const MOST_ENTRIES: usize = 16;

/// An entry that may be out of range.
pub trait Ranged {
    ghost ranged: { Self → Bool };

    /// Whether every field is in range.
    fn in_range(self) -> bool
        ensures { result ≡ ranged self };
}

impl Ranged for Pair {
    ghost ranged = { pair_ranged };

    fn in_range(self) -> bool {
        self.in_range()
    }
}

/// Up to 16 entries, in range and rising by their keys.
// A rule: no heap. Not one type with the slots of a sheet's draft: this list always rises, is in range, and is copied.
// No `impl Model`: that of a `Copy` type may forget nothing, and this one's would forget the slots beyond `count`.
#[derive(Copy)]
pub struct Entries<T: Keyed + Ranged + Copy> {
    slots: [T; MOST_ENTRIES],
    count: usize,
    ghost within: { count ≤ 16 },
    ghost whole: { length slots ≡ 16 },
    ghost up: { Rising T.key (take count slots) },
    ghost fit: { list_all T.ranged (take count slots) ≡ true },
}

// Whether every entry is in range.
// Not in the line of `judge`: there `search` did not prove `returns` through the chain.
fn all_in_range<T: Ranged + Copy>(list: &[T]) -> bool
    ensures { result ≡ list_all T.ranged list.now }
{
    list.iter().all(|entry| entry.in_range())
}

// Refuses entries of which one is out of range, and else entries that do not rise strictly or are more than 16.
// Not one function with the host's: only two calls would be shared, since rows have another limit and are counted at each address.
fn judge<T: Keyed + Ranged + Copy>(list: &[T]) -> Result<(), Refusal>
    ensures { result ≡ judged_entries T.ranged T.key list.now }
{
    if !all_in_range(list) {
        return Err(Refusal::FieldOutOfRange);
    }
    if list.len() > MOST_ENTRIES || !rises(list) {
        return Err(Refusal::NotRising);
    }
    Ok(())
}

impl<T: Keyed + Ranged + Copy + Default> Entries<T> {
    /// The list of these entries. Refused if one is out of range, and else if they do not rise strictly or are more than 16.
    pub fn from_slice(list: &[T]) -> Result<Entries<T>, Refusal>
        ensures { Made (λ e. take e.count e.slots) list.now (judged_entries T.ranged T.key list.now) result }
    {
        judge(list)?;
        let mut slots = [T::default(); MOST_ENTRIES];
        slots[..list.len()].copy_from_slice(list);
        Ok(Entries {
            slots,
            count: list.len(),
        })
    }
}

impl<T: Keyed + Ranged + Copy> Entries<T> {
    /// The entries, rising.
    pub fn as_slice(&self) -> &[T]
        ensures value { result.now ≡ take self.now.count self.now.slots }
        ensures few { length result.now ≤ 16 }
        ensures up { Rising T.key result.now }
        ensures fit { list_all T.ranged result.now ≡ true }
    {
        &self.slots[..self.count]
    }
}

// By hand: a derive is refused over ghost fields.
impl<T: Keyed + Ranged + Copy> Clone for Entries<T> {
    ghost is_clone = { λ x y. y ≡ x };

    ghost is_infallible = { λ _. ⊤ };

    fn clone(&self) -> Result<Entries<T>, AllocError> {
        Ok(*self)
    }
}
