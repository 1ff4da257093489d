//! Entries of two words.
ghost use Rattle.std.specs.Prelude.{◌≡◌, ◌==◌, false};
ghost use Rattle.sheet.specs.Words.{kind};
ghost use Rattle.sheet.specs.Entries.{entry_of};

use crate::kind::Opens;
use crate::opening::Opening;
use crate::word::fields;
use layers::{Member, Pair};
use message::Row;

/// What two words say: a row, a member of a set or a held pair.
#[derive(Clone, Copy)]
pub enum Entry {
    Row(Row),
    Member(Member),
    Pair(Pair),
}

impl Entry {
    // The entry that a word opens, and that `rest` completes; the end opens none.
    pub(crate) fn of(opening: Opening, rest: u32) -> Entry
        requires { (kind opening.word == 8) ≡ false }
        ensures { result ≡ entry_of opening.word rest }
    {
        let [head, a, b, c] = fields(opening.word);
        let [d, e, _, state] = fields(rest);
        let id = [a, b, c, d, e];
        match opening.kind {
            Opens::Row => Entry::Row(Row {
                address: head,
                id,
                on: state == 1,
            }),
            Opens::Member => Entry::Member(Member { id, set: head }),
            Opens::Pair => Entry::Pair(Pair { address: head, id }),
            // Never, by the `requires`. A type of openings without the end would be one more enum, and `Opens` orders all four.
            Opens::End => unreachable!(),
        }
    }
}
