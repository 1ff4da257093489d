//! What a word of a sheet is.
ghost use Rattle.std.specs.Prelude.{◌≡◌, ◌==◌, false, MatchOption};
ghost use Rattle.sheet.specs.Words.{kind};
ghost use Rattle.sheet.specs.Entries.{code, is_kind};

/// What a word opens: an entry of two words (a row, a member or a held pair), or the end. They stand in this order.
#[derive(Clone, Copy, PartialEq, Eq, PartialOrd, Ord)]
pub enum Opens {
    Row,
    Member,
    Pair,
    End,
}

/// The kind of a word: one of the first three words, the first of an entry or the closing word, or the rest of an entry.
#[derive(Clone, Copy, PartialEq, Eq)]
pub enum Kind {
    First,
    Second,
    Third,
    Opening(Opens),
    Rest,
}

impl Kind {
    // What the top four bits say, unless they are the number of no kind. No `TryFrom`: its error would say no more than `None`.
    pub(crate) fn of(word: u32) -> Option<Kind>
        ensures { MatchOption result (is_kind (kind word) ≡ false) (λ k. kind word ≡ code k) }
    {
        match word / 0x1000_0000 {
            1 => Some(Kind::First),
            2 => Some(Kind::Second),
            3 => Some(Kind::Third),
            4 => Some(Kind::Opening(Opens::Row)),
            5 => Some(Kind::Rest),
            6 => Some(Kind::Opening(Opens::Member)),
            7 => Some(Kind::Opening(Opens::Pair)),
            8 => Some(Kind::Opening(Opens::End)),
            _ => None,
        }
    }

    // Whether a word is of this kind.
    pub(crate) fn is_of(self, word: u32) -> bool
        ensures { result ≡ (kind word == code self) }
    {
        Kind::of(word) == Some(self)
    }
}
