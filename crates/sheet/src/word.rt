//! Words of 32 bits, and their parts.
ghost use Rattle.std.specs.Prelude.{◌≡◌, ◌+◌, [], ◌∷◌, length, MatchOption};
ghost use Rattle.sheet.specs.Words.{first, second, third, fourth, amount, words};

// The first word, its highest byte first, and the bytes after it; none if there are fewer than four.
pub(crate) fn split_word(bytes: &[u8]) -> Option<(u32, &[u8])>
    ensures { MatchOption result (words bytes.now ≡ []) (λ p. (words bytes.now ≡ p.0 ∷ words p.1.now) × (length bytes.now ≡ length p.1.now + 4)) }
{
    let (word, rest) = bytes.split_first_chunk::<4>()?;
    Some((u32::from_be_bytes(*word), rest))
}

// The four fields of seven bits below the kind, from the highest.
pub(crate) fn fields(word: u32) -> [u8; 4]
    ensures { result ≡ first word ∷ second word ∷ third word ∷ fourth word ∷ [] }
{
    // `as` narrows what has seven bits: `try_from` would be no plainer, with an error that cannot be.
    [
        (word / 0x20_0000 % 0x80) as u8,
        (word / 0x4000 % 0x80) as u8,
        (word / 0x80 % 0x80) as u8,
        (word % 0x80) as u8,
    ]
}

// The 28 bits below the kind, as one number.
pub(crate) fn amount(word: u32) -> u32
    ensures { result ≡ amount word }
{
    word % 0x1000_0000
}
