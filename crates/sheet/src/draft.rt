//! A sheet as far as it is read, and what is wrong with its next word.
ghost use Rattle.std.specs.Prelude.{◌≡◌, ◌==◌, true, false, []};
ghost use Rattle.sheet.specs.Words.{kind};
ghost use Rattle.sheet.specs.Contents.{after};
ghost use Rattle.sheet.specs.Drafts.{contents};
ghost use Rattle.sheet.specs.Entries.{opens, entry_of, Judged, has_slot, comes_last, with_entry};
ghost use Rattle.sheet.specs.Reading.{room, opening, fits_end, ending};

use crate::entry::Entry;
use crate::kind::{Kind, Opens};
use crate::opening::Opening;
use crate::refusal::SheetRefusal;
use crate::slots::Slots;
use crate::word::fields;
use host::{MOST_AT_ONE, MOST_ROWS, count_at};
use layers::{MOST_ENTRIES, Member, Pair};
use message::{Identity, Refusal, Row};
use rising::Keyed;

/// The identity, and the entries read so far.
// No `impl Model`: `make` reads the fields one by one, and of a type with a model a clause sees the value alone.
#[derive(Drop)]
pub struct Draft {
    pub identity: Identity,
    pub rows: Slots<Row, MOST_ROWS>,
    pub members: Slots<Member, MOST_ENTRIES>,
    pub pairs: Slots<Pair, MOST_ENTRIES>,
}

// Whether `x` comes after the last of the list.
fn comes_after<T: Keyed>(list: &[T], x: &T) -> bool
    ensures { result ≡ after T.key list.now x.now }
{
    list.last().is_none_or(|last| last.compare(x).is_lt())
}

// Whether the second word of an entry has its 0, and a state that the entry may have.
fn fits_end(opening: Opening, rest: u32) -> bool
    ensures { result ≡ fits_end opening.word rest }
{
    let [_, _, zero, state] = fields(rest);
    let most = u8::from(opening.kind == Opens::Row);
    zero == 0 && state <= most
}

impl Draft {
    // No entry yet.
    pub(crate) fn new(identity: Identity) -> Draft
        ensures { (result.identity ≡ identity) × (result.rows ≡ []) × (result.members ≡ []) × (result.pairs ≡ []) }
    {
        Draft {
            identity,
            rows: Slots::new(),
            members: Slots::new(),
            pairs: Slots::new(),
        }
    }

    // Whether there is a place for what a word opens.
    fn has_room(&self, opening: Opening) -> bool
        ensures { result ≡ room (contents self.now) opening.word }
    {
        let [address, ..] = fields(opening.word);
        match opening.kind {
            Opens::Row => self.rows.has_room()
                && count_at(self.rows.as_slice(), address) < MOST_AT_ONE,
            Opens::Member => self.members.has_room(),
            Opens::Pair => self.pairs.has_room(),
            Opens::End => true,
        }
    }

    // The word `n` as an entry's first or as the closing word, or what is wrong with it.
    pub(crate) fn opening(&self, n: usize, last: Opens, word: u32) -> Result<Opening, SheetRefusal>
        ensures { Judged n (opening n (opens last) (contents self.now) word) (λ o. o.word ≡ word) result }
    {
        let Some(opening) = Opening::after(last, word) else {
            return Err(SheetRefusal::new(Refusal::SheetOrder, n));
        };
        if !opening.fits(n) {
            return Err(SheetRefusal::new(Refusal::FieldOutOfRange, n));
        }
        if !self.has_room(opening) {
            return Err(SheetRefusal::new(Refusal::NotRising, n));
        }
        Ok(opening)
    }

    // Whether an entry comes after those of its kind.
    fn comes_last(&self, entry: &Entry) -> bool
        ensures { result ≡ comes_last (contents self.now) entry.now }
    {
        match entry {
            Entry::Row(row) => comes_after(self.rows.as_slice(), row),
            Entry::Member(member) => comes_after(self.members.as_slice(), member),
            Entry::Pair(pair) => comes_after(self.pairs.as_slice(), pair),
        }
    }

    // The entry that the word `n` completes, or what is wrong with that word; the end opens none.
    // The two words come apart: both together are the `Entry`, and only words without fault make one.
    pub(crate) fn ending(
        &self,
        n: usize,
        opening: Opening,
        rest: u32,
    ) -> Result<Entry, SheetRefusal>
        requires { (kind opening.word == 8) ≡ false }
        ensures { Judged n (ending (contents self.now) opening.word rest) (λ e. e ≡ entry_of opening.word rest) result }
    {
        if !Kind::Rest.is_of(rest) {
            return Err(SheetRefusal::new(Refusal::SheetOrder, n));
        }
        if !fits_end(opening, rest) {
            return Err(SheetRefusal::new(Refusal::FieldOutOfRange, n));
        }
        let entry = Entry::of(opening, rest);
        if !self.comes_last(&entry) {
            return Err(SheetRefusal::new(Refusal::NotRising, n));
        }
        Ok(entry)
    }

    // Enters an entry after those of its kind.
    pub(crate) fn enter(&mut self, entry: Entry)
        requires { has_slot (contents self.old) entry ≡ true }
        ensures { contents self.new ≡ with_entry (contents self.old) entry }
    {
        match entry {
            Entry::Row(row) => self.rows.push(row),
            Entry::Member(member) => self.members.push(member),
            Entry::Pair(pair) => self.pairs.push(pair),
        }
    }
}
