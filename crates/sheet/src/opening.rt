//! Words that open an entry, or end the sheet.
ghost use Rattle.std.specs.Prelude.{◌≡◌, false, true, MatchOption};
ghost use Rattle.sheet.specs.Words.{kind as number};
ghost use Rattle.sheet.specs.Entries.{opens};
ghost use Rattle.sheet.specs.Reading.{follows, fits};

use crate::kind::{Kind, Opens};
use crate::word::{amount, fields};
use message::Address;

/// The first word of an entry or the closing word, and what it opens.
#[derive(Clone, Copy)]
pub struct Opening {
    pub kind: Opens,
    pub word: u32,
    ghost told: { number word ≡ opens kind },
}

impl Opening {
    // The word as the first of an entry or as the closing word, if its kind may come after an entry of the kind `last`.
    pub(crate) fn after(last: Opens, word: u32) -> Option<Opening>
        ensures { MatchOption result (follows (opens last) (number word) ≡ false) (λ o. (follows (opens last) (number word) ≡ true) × (o.word ≡ word)) }
    {
        match Kind::of(word)? {
            Kind::Opening(kind) if last <= kind => Some(Opening { kind, word }),
            _ => None,
        }
    }

    // Whether the address, the set or the count in the word `n` is in range.
    pub(crate) fn fits(self, n: usize) -> bool
        ensures { result ≡ fits n self.word }
    {
        let [head, ..] = fields(self.word);
        match self.kind {
            Opens::Row | Opens::Pair => Address::new(head).is_some(),
            Opens::Member => (1..=8).contains(&head),
            // By `as`, as `usize` has no `From<u32>`: 28 bits always fit.
            Opens::End => amount(self.word) as usize == n,
        }
    }
}
