//! Why a sheet is refused.
ghost use Rattle.std.specs.Prelude.{◌≡◌};

use message::Refusal;
use std::fmt;

/// The refusal (13 to 17), and the word that decided, counted from 0.
#[derive(Clone, Copy, PartialEq, Eq, Debug)]
pub struct SheetRefusal {
    pub refusal: Refusal,
    pub word: usize,
}

// Where a word stands: entries begin at the fourth word and have two words each, so that the number of a word tells.
#[derive(Clone, Copy)]
enum Place {
    Header,
    FirstOfEntry,
    SecondOfEntry,
}

impl Place {
    fn of(word: usize) -> Place {
        if word < 3 {
            Place::Header
        } else if word % 2 == 1 {
            Place::FirstOfEntry
        } else {
            Place::SecondOfEntry
        }
    }
}

fn out_of_order(place: Place) -> &'static str {
    match place {
        Place::Header => "the first three words are of kinds 1, 2 and 3",
        Place::FirstOfEntry => "no row, member, held pair or end that may stand here",
        Place::SecondOfEntry => "no kind 5 that completes an entry, or a word after the end",
    }
}

fn out_of_range(place: Place) -> &'static str {
    match place {
        Place::Header => "Function Block neither 0 to 31 nor 127",
        Place::FirstOfEntry => "address, set or count of words out of range",
        Place::SecondOfEntry => "state neither 0 nor, in a row, 1, or the field before it not 0",
    }
}

fn not_rising(place: Place) -> &'static str {
    match place {
        Place::SecondOfEntry => "row, member or held pair not above the one before it",
        _ => "one row, member or held pair too many",
    }
}

impl SheetRefusal {
    // Shorter than the fields by name, at the many places that refuse.
    pub(crate) fn new(refusal: Refusal, word: usize) -> SheetRefusal
        ensures { (result.refusal ≡ refusal) × (result.word ≡ word) }
    {
        SheetRefusal { refusal, word }
    }

    // What is wrong.
    fn sentence(self) -> &'static str {
        let place = Place::of(self.word);
        match self.refusal {
            Refusal::SheetLength => "a sheet has 16 to 784 bytes, in whole words",
            Refusal::SheetOrder => out_of_order(place),
            Refusal::FieldOutOfRange => out_of_range(place),
            Refusal::NotRising => not_rising(place),
            // The fifth, `SetCollision`: callers read the field as a `Refusal`, so a type of these five alone cannot stand there.
            _ => "row on in the same set and at the same address as a row before it",
        }
    }
}

/// What is wrong and where, in a sentence.
impl fmt::Display for SheetRefusal {
    fn fmt<W: fmt::Write>(&self, f: &mut fmt::Formatter<W>) -> fmt::Result {
        let word = self.word;
        let sentence = self.sentence();
        write!(f, "word {word}: {sentence}")
    }
}
