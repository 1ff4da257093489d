//! Reads a whole sheet.
ghost use Rattle.std.specs.Prelude.{◌≡◌, Ok};
ghost use Rattle.sheet.specs.Contents.{Contents};
ghost use Rattle.sheet.specs.Law.{Exactly};
ghost use Rattle.sheet.specs.Layout.{flat, layout};
ghost use Rattle.sheet.specs.Reading.{accepted, reads, reads_words, header, settled, sized};
ghost use Rattle.sheet.specs.Told.{told, says};
ghost use Rattle.sheet.specs.Valid.{Valid};
ghost use Rattle.sheet.specs.Words.{words};

use crate::body::body;
use crate::collisions::clash;
use crate::draft::Draft;
use crate::kind::Kind;
use crate::refusal::SheetRefusal;
use crate::sheet::Sheet;
use crate::sheet::making::make;
use crate::word::{fields, split_word};
use message::{Identity, Refusal};

// Identity and Function Block, in the first three words: eleven identity bytes, and the block as the twelfth field.
// Three tests and no loop, which would need the three kinds, words and numbers in pairs.
fn header(u: u32, v: u32, w: u32) -> Result<Draft, SheetRefusal>
    ensures { told result ≡ header u v w }
{
    if !Kind::First.is_of(u) {
        return Err(SheetRefusal::new(Refusal::SheetOrder, 0));
    }
    if !Kind::Second.is_of(v) {
        return Err(SheetRefusal::new(Refusal::SheetOrder, 1));
    }
    if !Kind::Third.is_of(w) {
        return Err(SheetRefusal::new(Refusal::SheetOrder, 2));
    }
    let [a, b, c, d] = fields(u);
    let [e, f, g, h] = fields(v);
    let [i, j, k, block] = fields(w);
    Identity::new([a, b, c, d, e, f, g, h, i, j, k], block)
        .map(Draft::new)
        .map_err(|refusal| SheetRefusal::new(refusal, 2))
}

// Reads the words: the first three, and those after them.
fn read_words(bytes: &[u8]) -> Result<Draft, SheetRefusal>
    ensures { told result ≡ reads_words (words bytes.now) }
{
    let (u, bytes) = split_word(bytes).ok_or(SheetRefusal::new(Refusal::SheetOrder, 0))?;
    let (v, bytes) = split_word(bytes).ok_or(SheetRefusal::new(Refusal::SheetOrder, 1))?;
    let (w, bytes) = split_word(bytes).ok_or(SheetRefusal::new(Refusal::SheetOrder, 2))?;
    body(bytes, header(u, v, w)?)
}

// Refuses two rows that are on in one set at one address.
fn settle(draft: Draft) -> Result<Draft, SheetRefusal>
    ensures { told result ≡ settled (told (Ok draft)) }
{
    match clash(draft.members.as_slice(), draft.rows.as_slice()) {
        Some(word) => Err(SheetRefusal::new(Refusal::SetCollision, word)),
        None => Ok(draft),
    }
}

// Whether a sheet may have so many bytes: 16 to 784, in whole words.
fn is_sized(length: usize) -> bool
    ensures { result ≡ sized length }
{
    (16..=784).contains(&length) && length % 4 == 0
}

// Reads the words, and then looks for two rows on in one set.
fn read_draft(bytes: &[u8]) -> Result<Draft, SheetRefusal>
    ensures { told result ≡ reads bytes.now }
{
    if !is_sized(bytes.len()) {
        return Err(SheetRefusal::new(Refusal::SheetLength, 0));
    }
    settle(read_words(bytes)?)
}

/// Reads a sheet: what it holds, or why and at which word it is refused. It is accepted exactly if its bytes are the layout
/// of valid contents, and then holds these.
pub fn read_sheet(bytes: &[u8]) -> Result<Sheet, SheetRefusal>
    ensures value { says result ≡ reads bytes.now }
    ensures only { (c : Contents) → says result ≡ accepted c → (bytes.now ≡ flat (layout c)) × Valid c }
    ensures all { (c : Contents) → Valid c → bytes.now ≡ flat (layout c) → says result ≡ accepted c }
    ensures law { Exactly }
{
    let draft = read_draft(bytes)?;
    Ok(make(&draft))
}
