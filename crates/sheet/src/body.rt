//! Reads the entries of a sheet and its closing word.
ghost use Rattle.std.specs.Prelude.{◌≡◌};
ghost use Rattle.sheet.specs.Words.{words};
ghost use Rattle.sheet.specs.Drafts.{contents};
ghost use Rattle.sheet.specs.Reading.{body};
ghost use Rattle.sheet.specs.Told.{told};

use crate::draft::Draft;
use crate::kind::Opens;
use crate::refusal::SheetRefusal;
use crate::word::split_word;
use message::Refusal;

// Reads the words from the fourth on.
pub(crate) fn body(bytes: &[u8], mut draft: Draft) -> Result<Draft, SheetRefusal>
    ensures { told result ≡ body 3 4 (contents draft) (words bytes.now) }
{
    let mut left = bytes;
    let mut last = Opens::Row;
    // The number of the next word, which a refusal tells. No `enumerate`: a turn takes two words, of which the second may lack,
    // and a refusal of the one that lacks tells its number, too.
    let mut n = 3;
    while let Some((word, after)) = split_word(left) {
        let opening = draft.opening(n, last, word)?;
        let next = split_word(after);
        // An `if` and no `match` on the kind: a row, a member and a pair go the same way.
        if opening.kind == Opens::End {
            return match next {
                None => Ok(draft),
                Some(_) => Err(SheetRefusal::new(Refusal::SheetOrder, n + 1)),
            };
        }
        let Some((rest, after)) = next else {
            return Err(SheetRefusal::new(Refusal::SheetOrder, n + 1));
        };
        let entry = draft.ending(n + 1, opening, rest)?;
        draft.enter(entry);
        left = after;
        last = opening.kind;
        n += 2;
    }
    Err(SheetRefusal::new(Refusal::SheetOrder, n))
}
