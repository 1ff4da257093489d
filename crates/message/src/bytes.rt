//! Bytes of seven bits.
ghost use Rattle.std.specs.Prelude.{◌≡◌};
ghost use Rattle.message.specs.Bytes.{sevens};

/// Whether every byte is below 80h.
pub fn all_seven_bits(bytes: &[u8]) -> bool
    ensures { result ≡ sevens bytes.now }
{
    bytes.iter().all(|byte| *byte < 0x80)
}
