//! Lists in rising order of a key, for any record that has one: find, enter and remove.
//! By a rule the slots are memory of the caller's, and the first `count` of them are in use.
#![tactic(auto)]

ghost use Rattle.std.specs.Prelude.{◌≡◌, ℕ, ◌+◌, ◌<◌, ◌≤◌, List, [], ◌∷◌, ◌++◌, length, take, drop, is_some, Some, None, MatchOption, MatchResult, slice_index_or};
ghost use Rattle.std.specs.Ordering.{MatchOrdering};
ghost use Rattle.rising.specs.Order.{Key, Before};
ghost use Rattle.rising.specs.Lists.{rising, Rising, holds, found, Stands, Absent, Gap, FoundAt, NotFound, entering, without, having};
ghost use Rattle.rising.specs.Slots.{Put, KeptOrPut, KeptOrTaken};
ghost use Rattle.rising.specs.Laws.{Enters, Leaves};

use std::cmp::Ordering;

/// A record that has a key, and is ordered by it.
pub trait Keyed {
    ghost key: { Self → Key };

    /// How the key of `self` stands to the key of `other`.
    fn compare(&self, other: &Self) -> Ordering
        ensures { MatchOrdering result (Before (key self.now) (key other.now)) (key self.now ≡ key other.now) (Before (key other.now) (key self.now)) };
}

impl Keyed for u32 {
    ghost key = { λ n. n ∷ [] };

    fn compare(&self, other: &u32) -> Ordering {
        self.cmp(other)
    }
}

// Where the key of `x` stands in the list, or else where it would: halving, since the list rises.
// Not the library's `binary_search_by`: that goes on past a record that has the key, so a search that hits costs more comparisons, and in a
// list that does not rise it finds others.
fn search<T: Keyed>(list: &[T], x: &T) -> Result<usize, usize>
    ensures { MatchResult result (FoundAt T.key x.now list.now) (NotFound T.key x.now list.now) }
{
    let mut low = 0;
    let mut high = list.len();
    while low < high {
        let mid = low + (high - low) / 2;
        match list[mid].compare(x) {
            Ordering::Less => low = mid + 1,
            Ordering::Equal => return Ok(mid),
            Ordering::Greater => high = mid,
        }
    }
    Err(low)
}

/// The place of the record with the key of `x`. What is found has that key in any list; that nothing is found says that it
/// is not there only where the list rises.
pub fn find<T: Keyed>(list: &[T], x: &T) -> Option<usize>
    ensures place { MatchOption result (Rising T.key list.now → Absent T.key x.now list.now) (Stands T.key x.now list.now) }
    ensures only { Rising T.key list.now → (i j : ℕ) → Stands T.key x.now list.now i → Stands T.key x.now list.now j → i ≡ j }
    ensures some { Rising T.key list.now → is_some result ≡ holds T.key x.now list.now }
    ensures content { MatchOption result (Rising T.key list.now → found T.key x.now list.now ≡ None) (λ i. Rising T.key list.now → (d : T) → found T.key x.now list.now ≡ Some (slice_index_or list.now i d)) }
{
    search(list, x).ok()
}

/// Whether the list rises strictly.
pub fn rises<T: Keyed>(list: &[T]) -> bool
    ensures { result ≡ rising T.key list.now }
{
    list.is_sorted_by(|x, y| x.compare(y).is_lt())
}

// Puts `x` at its place `i` among the first `count` slots, and moves those from `i` on up by one.
fn put<T: Keyed + Copy>(slots: &mut [T], count: usize, i: usize, x: T)
    requires within { i ≤ count }
    requires room { count < length slots.old }
    requires gap { Rising T.key (take count slots.old) → Gap T.key x (take count slots.old) i }
    ensures whole { Put x slots.old count (count + 1) slots.new i }
    ensures value { Rising T.key (take count slots.old) → take (count + 1) slots.new ≡ entering (length slots.old) T.key x (take count slots.old) }
{
    slots[count] = x;
    slots[i..=count].rotate_right(1);
}

/// Enters `x` at its place among the first `count` slots, and tells how many are in use from then on. Where the slots are
/// full, or its key is there, nothing changes; a count beyond the slots counts as full.
pub fn enter<T: Keyed + Copy>(slots: &mut [T], count: usize, x: T) -> usize
    ensures whole { KeptOrPut x slots.old count result slots.new }
    ensures value { Rising T.key (take count slots.old) → take result slots.new ≡ entering (length slots.old) T.key x (take count slots.old) }
    ensures rest { drop result slots.new ≡ drop result slots.old }
    ensures fits { count ≤ length slots.old → result ≤ length slots.new }
    ensures long { length slots.new ≡ length slots.old }
    ensures still { Rising T.key (take count slots.old) → Rising T.key (take result slots.new) }
    ensures laws { Rising T.key (take count slots.old) → Enters T.key (length slots.old) x (take count slots.old) (take result slots.new) }
{
    if count >= slots.len() {
        return count;
    }
    match search(&slots[..count], &x) {
        Ok(_) => count,
        Err(i) => {
            put(slots, count, i, x);
            count + 1
        }
    }
}

/// Removes the record with the key of `x` from the first `count` slots, and tells how many are in use from then on. Where
/// the key is not there, nothing changes, nor at a count beyond the slots. The record lies in the slot that came free.
pub fn remove<T: Keyed + Copy>(slots: &mut [T], count: usize, x: &T) -> usize
    ensures whole { KeptOrTaken T.key x.now slots.old count result slots.new }
    ensures value { count ≤ length slots.old → Rising T.key (take count slots.old) → take result slots.new ≡ without T.key x.now (take count slots.old) }
    ensures freed { count ≤ length slots.old → Rising T.key (take count slots.old) → drop result slots.new ≡ having T.key x.now (take count slots.old) ++ drop count slots.old }
    ensures fits { count ≤ length slots.old → result ≤ length slots.new }
    ensures long { length slots.new ≡ length slots.old }
    ensures still { Rising T.key (take count slots.old) → Rising T.key (take result slots.new) }
    ensures laws { count ≤ length slots.old → Rising T.key (take count slots.old) → Leaves T.key x.now (take count slots.old) (take result slots.new) }
{
    if count > slots.len() {
        return count;
    }
    match search(&slots[..count], x) {
        Ok(i) => {
            slots[i..count].rotate_left(1);
            count - 1
        }
        Err(_) => count,
    }
}

#[cfg(test)]
mod tests {
    use super::*;

    #[test]
    fn found_at_either_end(rt: HostRuntime) {
        let list = [2, 3, 5, 7];
        assert_eq!(rt; find(&list, &2), Some(0));
        assert_eq!(rt; find(&list, &7), Some(3));
        assert_eq!(rt; find(&list, &1), None);
        assert_eq!(rt; find(&list, &4), None);
        assert_eq!(rt; find(&list, &8), None);
        assert_eq!(rt; find(&list[0..1], &2), Some(0));
        assert_eq!(rt; find(&list[0..0], &2), None);
    }

    #[test]
    fn rises_strictly(rt: HostRuntime) {
        let list = [1, 2, 2, 0];
        assert!(rt; rises(&list[0..0]), "none");
        assert!(rt; rises(&list[0..1]), "one");
        assert!(rt; rises(&list[0..2]), "two");
        assert!(rt; !rises(&list[0..3]), "equal");
        assert!(rt; !rises(&list[2..4]), "falling");
    }

    #[test]
    fn enters_in_place(rt: HostRuntime) {
        let mut slots = [0, 0, 0, 9];
        assert_eq!(rt; enter(&mut slots, 0, 5), 1);
        assert_eq!(rt; slots, [5, 0, 0, 9], "into none");
        assert_eq!(rt; enter(&mut slots, 1, 7), 2);
        assert_eq!(rt; slots, [5, 7, 0, 9], "last");
        assert_eq!(rt; enter(&mut slots, 2, 3), 3);
        assert_eq!(rt; slots, [3, 5, 7, 9], "first");
        assert_eq!(rt; enter(&mut slots, 3, 5), 3);
        assert_eq!(rt; slots, [3, 5, 7, 9], "there already");
        assert_eq!(rt; enter(&mut slots, 3, 6), 4);
        assert_eq!(rt; slots, [3, 5, 6, 7], "the last place");
        assert_eq!(rt; enter(&mut slots, 4, 1), 4);
        assert_eq!(rt; enter(&mut slots, 5, 1), 5);
        assert_eq!(rt; slots, [3, 5, 6, 7], "full");
    }

    #[test]
    fn removes_and_closes_the_gap(rt: HostRuntime) {
        let mut slots = [3, 5, 7, 9];
        assert_eq!(rt; remove(&mut slots, 5, &5), 5);
        assert_eq!(rt; remove(&mut slots, 4, &4), 4);
        assert_eq!(rt; slots, [3, 5, 7, 9], "absent");
        assert_eq!(rt; remove(&mut slots, 4, &3), 3);
        assert_eq!(rt; slots, [5, 7, 9, 3], "first");
        assert_eq!(rt; remove(&mut slots, 3, &9), 2);
        assert_eq!(rt; slots, [5, 7, 9, 3], "last");
        assert_eq!(rt; remove(&mut slots, 2, &5), 1);
        assert_eq!(rt; remove(&mut slots, 1, &7), 0);
        assert_eq!(rt; remove(&mut slots, 0, &7), 0);
        assert_eq!(rt; slots, [7, 5, 9, 3], "none left");
    }
}
