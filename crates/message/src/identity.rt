//! What a device says of itself.
ghost use Rattle.std.specs.Prelude.{◌≡◌, true, false, ◌&&◌, MatchResult};
ghost use Rattle.message.specs.Bytes.{is_identity, is_block};

use crate::bytes::all_seven_bits;
use crate::refusal::Refusal;

/// Manufacturer (3 bytes), family (2), model (2) and revision (4), and the Function Block (0 to 31, or 127).
#[derive(Clone, Copy)]
pub struct Identity {
    pub bytes: [u8; 11],
    pub block: u8,
    ghost low: { is_identity bytes ≡ true },
    ghost known: { is_block block ≡ true },
}

impl Identity {
    /// The identity of these bytes, or refusal 15 where one is out of range.
    pub fn new(bytes: [u8; 11], block: u8) -> Result<Identity, Refusal>
        ensures { MatchResult result (λ i. (i.bytes ≡ bytes) × (i.block ≡ block)) (λ e. (e ≡ Refusal.FieldOutOfRange) × ((is_identity bytes && is_block block) ≡ false)) }
    {
        if all_seven_bits(&bytes) && matches!(block, 0..=31 | 127) {
            Ok(Identity { bytes, block })
        } else {
            Err(Refusal::FieldOutOfRange)
        }
    }
}
