//! Reads what is no message, and what is hardly one: each is taken or refused as the format says.
#![tactic(auto)]

ghost use Rattle.std.specs.Prelude.{◌<◌};

#[cfg(test)]
mod tests {
    use message::{Content, read};
    use std::alloc::{AllocError, AllocGlobal};
    use std::test::Fail;

    // What reading gave: whether the bytes are framed, and what a reply to a Profile Inquiry lists.
    // `Refused` is a case and no `Result` around the others: each test compares with one value.
    #[derive(Clone, Copy, PartialEq, Eq, Debug)]
    enum Outcome {
        Refused,
        Other,
        Listed { on: usize, off: usize },
        Known,
    }

    fn reading(bytes: &[u8]) -> Outcome {
        let Ok(message) = read(bytes) else {
            return Outcome::Refused;
        };
        match message.content {
            Content::Other => Outcome::Other,
            Content::ProfileReply { on, off } => Outcome::Listed {
                on: on.len(),
                off: off.len(),
            },
            _ => Outcome::Known,
        }
    }

    // A message of so many bytes: of that Sub-ID and version, with zeros in its body, and cut off where it is to be shorter than that.
    fn message(
        rt: &impl AllocGlobal,
        sub_id: u8,
        version: u8,
        length: usize,
    ) -> Result<Vec<u8>, AllocError> {
        let head = [0xF0, 0x7E, 0x7F, 0x0D, sub_id, version];
        let mut bytes = Vec::from_array(rt.alloc(), head)?;
        bytes.resize(length, 0)?;
        if let Some(last) = bytes.last_mut() {
            *last = 0xF7;
        }
        Ok(bytes)
    }

    // What the message of so many bytes gives.
    fn reading_of(
        rt: &impl AllocGlobal,
        sub_id: u8,
        version: u8,
        length: usize,
    ) -> Result<Outcome, AllocError> {
        Ok(reading(message(rt, sub_id, version, length)?.as_slice()))
    }

    // Whether the message of a length, and nothing else, is read.
    fn reads_length(rt: &impl AllocGlobal, length: usize) -> Result<bool, AllocError> {
        Ok(reading_of(rt, 0x20, 2, length)? == Outcome::Known)
    }

    // Whether a message of 22 bytes with another byte at a place is read.
    fn reads_with(rt: &impl AllocGlobal, place: usize, byte: u8) -> Result<bool, AllocError> {
        let mut bytes = message(rt, 0x22, 2, 22)?;
        if let Some(changed) = bytes.get_mut(place) {
            *changed = byte;
        }
        Ok(reading(bytes.as_slice()) != Outcome::Refused)
    }

    // What a listing of 124 bytes with these counts of IDs gives, each of two bytes.
    fn counted(rt: &impl AllocGlobal, on: [u8; 2], off: [u8; 2]) -> Result<Outcome, AllocError> {
        let mut bytes = message(rt, 0x21, 2, 124)?;
        for (place, count) in [(14, on), (16 + number(on) * 5, off)] {
            if let Some(counted) = bytes.as_mut_slice().get_mut(place..place + 2) {
                counted.copy_from_slice(&count);
            }
        }
        Ok(reading(bytes.as_slice()))
    }

    // The number of two bytes of seven bits, lowest first.
    fn number(bytes: [u8; 2]) -> usize
        ensures { result < 0x10000 }
    {
        let [low, high] = bytes;
        usize::from(low) + usize::from(high) * 0x80
    }

    #[test]
    fn lengths(rt: HostRuntime) -> Result<(), Fail> {
        for length in 0..17 {
            assert_eq!(rt; reads_length(&rt, length)?, length >= 15);
        }
        for length in 511..515 {
            assert_eq!(rt; reads_length(&rt, length)?, length <= 512);
        }
        Ok(())
    }

    #[test]
    fn frame_bytes(rt: HostRuntime) -> Result<(), Fail> {
        for byte in 0..=255 {
            assert_eq!(rt; reads_with(&rt, 0, byte)?, byte == 0xF0);
            assert_eq!(rt; reads_with(&rt, 1, byte)?, byte == 0x7E);
            assert_eq!(rt; reads_with(&rt, 3, byte)?, byte == 0x0D);
            assert_eq!(rt; reads_with(&rt, 21, byte)?, byte == 0xF7);
        }
        Ok(())
    }

    #[test]
    fn inner_bytes(rt: HostRuntime) -> Result<(), Fail> {
        for place in 1..21 {
            assert_eq!(rt; reads_with(&rt, place, 0x80)?, false);
            assert_eq!(rt; reads_with(&rt, place, 0xFF)?, false);
            assert_eq!(rt; reads_with(&rt, place, 0x7F)?, place != 1 && place != 3);
        }
        Ok(())
    }

    #[test]
    fn counted_ids(rt: HostRuntime) -> Result<(), Fail> {
        for high in 0..=0x7F {
            for low in 0..=0x7F {
                let count = number([low, high]);
                let on = Outcome::Listed {
                    on: count * 5,
                    off: 0,
                };
                let off = Outcome::Listed {
                    on: 0,
                    off: count * 5,
                };
                let fits = count <= 21;
                assert_eq!(rt;
                    counted(&rt, [low, high], [0, 0])?,
                    if fits { on } else { Outcome::Other }
                );
                assert_eq!(rt;
                    counted(&rt, [0, 0], [low, high])?,
                    if fits { off } else { Outcome::Other }
                );
            }
        }
        assert_eq!(rt;
            counted(&rt, [20, 0], [1, 0])?,
            Outcome::Listed { on: 100, off: 5 }
        );
        assert_eq!(rt; counted(&rt, [20, 0], [2, 0])?, Outcome::Other);
        Ok(())
    }

    #[test]
    fn versions(rt: HostRuntime) -> Result<(), Fail> {
        for sub_id in 0..128 {
            assert_eq!(rt; reading_of(&rt, sub_id, 0, 60)?, Outcome::Other);
        }
        assert_eq!(rt; reading_of(&rt, 0x70, 127, 31)?, Outcome::Other);
        assert_eq!(rt; reading_of(&rt, 0x70, 127, 32)?, Outcome::Known);
        assert_eq!(rt; reading_of(&rt, 0x70, 1, 31)?, Outcome::Known);
        Ok(())
    }
}
