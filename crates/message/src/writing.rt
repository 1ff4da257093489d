//! Writing messages into what is left of a lent buffer.
ghost use Rattle.std.specs.Prelude.{◌≡◌};
ghost use Rattle.message.specs.Codes.{code, status_code};
ghost use Rattle.message.specs.Messages.{encode};
ghost use Rattle.message.specs.Sending.{channels, meant};
ghost use Rattle.message.specs.Pens.{PutOrNot};
ghost use Rattle.message.specs.Writing.{Written};

use crate::address::Address;
use crate::head::Head;
use crate::muid::Muid;
use crate::pen::Pen;
use crate::refusal::Refusal;
use crate::sent::Sent;
use crate::sub_id::SubId;

/// `01 00` at a channel, else `00 00`.
fn channel_count(address: Address) -> [u8; 2]
    ensures { result ≡ channels address.byte }
{
    // Channels by their bytes, below 10h: a method of `Address` for this one question would be no plainer.
    if address.byte < 0x10 {
        [0x01, 0x00]
    } else {
        [0x00, 0x00]
    }
}

impl Sent {
    /// What the message begins with.
    #[inline(always)]
    fn head(self, source: Muid) -> Head
        ensures sub_id { code result.sub_id ≡ (meant source.number self).sub }
        ensures address { result.address.byte ≡ (meant source.number self).address }
        ensures source { result.source.number ≡ source.number }
        ensures destination { result.destination.number ≡ (meant source.number self).destination }
    {
        let device = Address::function_block();
        let all = Muid::broadcast();
        let (sub_id, address, destination) = match self {
            Sent::Discovery { .. } => (SubId::Discovery, device, all),
            Sent::DiscoveryReply { to, .. } => (SubId::ReplyToDiscovery, device, to),
            Sent::InvalidateMuid { .. } => (SubId::InvalidateMuid, device, all),
            Sent::Enabled { address, .. } => (SubId::ProfileEnabledReport, address, all),
            Sent::Disabled { address, .. } => (SubId::ProfileDisabledReport, address, all),
            Sent::Added { address, .. } => (SubId::ProfileAddedReport, address, all),
            Sent::Removed { address, .. } => (SubId::ProfileRemovedReport, address, all),
            Sent::Nak { to, address, .. } => (SubId::Nak, address, to),
        };
        Head {
            sub_id,
            address,
            source,
            destination,
        }
    }

    /// Writes the message from the own number with a pen, or refuses where it does not fit.
    #[inline(always)]
    pub fn write(self, own: Muid, pen: &mut Pen<'_>) -> Result<(), Refusal>
        ensures { PutOrNot (encode (meant own.number self)) pen.old result pen.new }
    {
        let head = self.head(own);
        match self {
            Sent::Discovery { identity } => {
                let rest = [0x04, 0x00, 0x04, 0x00, 0x00, 0x00];
                head.write(&identity.bytes, &rest, pen)
            }
            Sent::DiscoveryReply { identity, path, .. } => {
                let rest = [0x04, 0x00, 0x04, 0x00, 0x00, path, identity.block];
                head.write(&identity.bytes, &rest, pen)
            }
            Sent::InvalidateMuid { target } => head.write(&target.bytes(), &[], pen),
            Sent::Enabled { address, id } | Sent::Disabled { address, id } => {
                head.write(&id.bytes, &channel_count(address), pen)
            }
            Sent::Added { id, .. } | Sent::Removed { id, .. } => head.write(&id.bytes, &[], pen),
            Sent::Nak { sub_id, status, .. } => {
                head.write(&[sub_id, status.byte()], &[0; 8], pen)
            }
        }
    }
}

/// Writes a message from the own number at a place of the buffer and tells where it ends, or refuses where it does not fit.
// A buffer and a place are a promise to callers, so they stay: `Sent::write` takes a pen.
pub fn write(sent: Sent, own: Muid, out: &mut [u8], at: usize) -> Result<usize, Refusal>
    ensures { Written (encode (meant own.number sent)) out.old at result out.new }
{
    let mut pen = Pen { out, at };
    sent.write(own, &mut pen)?;
    Ok(pen.at)
}
