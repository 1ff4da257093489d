//! The bytes of a cable, collected into whole System Exclusive messages.
#![tactic(auto)]

ghost use Rattle.std.specs.Prelude.{◌≡◌, None};

mod feeding;
pub mod laws;

/// The longest message that is collected, F0h and F7h counted, and the least buffer.
pub use message::LONGEST;

/// Collects one cable's bytes. The bytes of the open message stand at the front of the buffer that is lent to each call: there is no heap, so
/// their place is the caller's, and only how many they are is held.
#[derive(Clone, Copy)]
pub struct Collector {
    held: Option<usize>,
}

impl Collector {
    /// A collector with no open message.
    pub fn new() -> Collector
        ensures { result.held ≡ None }
    {
        Collector { held: None }
    }

    /// How many bytes of an open message are held, if one is open.
    pub fn open(&self) -> Option<usize>
        ensures { result ≡ self.now.held }
    {
        self.held
    }
}

#[cfg(test)]
mod tests {
    use crate::Collector;
    use message::Refusal;
    use std::alloc::{AllocError, AllocGlobal};
    use std::test::Fail;

    // Feeds a stream, and tells the lengths of the messages that come out, in their order.
    fn drive(
        rt: &impl AllocGlobal,
        collector: &mut Collector,
        stream: &[u8],
        buffer: &mut [u8],
    ) -> Result<Vec<usize>, AllocError> {
        stream
            .iter()
            .filter_map(|byte| collector.feed(*byte, buffer).ok().flatten())
            .collect(rt.alloc())
    }

    // Whether each byte of a stream is refused for the buffer's length.
    fn refused(collector: &mut Collector, stream: &[u8], buffer: &mut [u8]) -> bool {
        stream.iter().all(|byte| collector.feed(*byte, buffer) == Err(Refusal::BufferTooSmall))
    }

    #[test]
    fn a_message_comes_out_whole(rt: HostRuntime) -> Result<(), Fail> {
        let mut collector = Collector::new();
        let mut buffer = [9; 600];
        let told = drive(
            &rt,
            &mut collector,
            &[0x01, 0xF0, 0x7E, 0x7F, 0xF7],
            &mut buffer,
        )?;
        assert_eq!(rt; told.as_slice(), [4].as_slice());
        assert!(rt; buffer.starts_with(&[0xF0, 0x7E, 0x7F, 0xF7, 9]));
        assert_eq!(rt; collector.open(), None);
        Ok(())
    }

    #[test]
    fn real_time_bytes_are_left_out(rt: HostRuntime) -> Result<(), Fail> {
        let mut collector = Collector::new();
        let mut buffer = [9; 512];
        let told = drive(
            &rt,
            &mut collector,
            &[0xF0, 0xF8, 0x7E, 0xFE, 0xFF, 0xF7, 0xF8],
            &mut buffer,
        )?;
        assert_eq!(rt; told.as_slice(), [3].as_slice());
        assert!(rt; buffer.starts_with(&[0xF0, 0x7E, 0xF7, 9]));
        Ok(())
    }

    #[test]
    fn a_dropped_message_is_not_told(rt: HostRuntime) -> Result<(), Fail> {
        let mut collector = Collector::new();
        let mut buffer = [9; 512];
        let by_opening = drive(
            &rt,
            &mut collector,
            &[0xF0, 1, 2, 3, 0xF0, 4, 0xF7],
            &mut buffer,
        )?;
        assert_eq!(rt; by_opening.as_slice(), [3].as_slice());
        assert!(rt; buffer.starts_with(&[0xF0, 4, 0xF7, 3, 9]));
        let by_status = drive(&rt, &mut collector, &[0xF0, 1, 0xC0, 2, 0xF7], &mut buffer)?;
        assert!(rt; by_status.is_empty());
        assert_eq!(rt; collector.open(), None);
        let next = drive(&rt, &mut collector, &[0xF0, 5, 0xF7, 0xF7], &mut buffer)?;
        assert_eq!(rt;
            next.as_slice(),
            [3].as_slice(),
            "F7h without an open message tells nothing"
        );
        Ok(())
    }

    #[test]
    fn the_513th_byte_drops(rt: HostRuntime) -> Result<(), Fail> {
        let mut collector = Collector::new();
        let mut buffer = [9; 600];
        let mut stream = [1; 513];
        stream[0] = 0xF0;
        stream[511] = 0xF7;
        let longest = drive(&rt, &mut collector, &stream, &mut buffer)?;
        assert_eq!(rt; longest.as_slice(), [512].as_slice());
        stream[511] = 1;
        stream[512] = 0xF7;
        let ended = drive(&rt, &mut collector, &stream, &mut buffer)?;
        assert!(rt; ended.is_empty());
        assert_eq!(rt; collector.open(), None);
        assert_eq!(rt; buffer[512], 9);
        stream[512] = 1;
        let _ = drive(&rt, &mut collector, &stream, &mut buffer)?;
        assert!(rt; collector.open() == None, "dropped by a byte below 80h");
        assert_eq!(rt; buffer[512], 9);
        let next = drive(&rt, &mut collector, &[0xF0, 0xF7], &mut buffer)?;
        assert_eq!(rt; next.as_slice(), [2].as_slice());
        Ok(())
    }

    #[test]
    fn a_small_buffer_is_refused(rt: HostRuntime) -> Result<(), Fail> {
        let mut collector = Collector::new();
        let mut buffer = [9; 512];
        let _ = drive(&rt, &mut collector, &[0xF0, 1], &mut buffer)?;
        let mut small = [7; 511];
        assert!(rt; refused(&mut collector, &[0xF0, 2, 0xF7, 0xC0], &mut small));
        assert!(rt; small.starts_with(&[7, 7, 7]));
        assert_eq!(rt; collector.open(), Some(2));
        let told = drive(&rt, &mut collector, &[3, 0xF7], &mut buffer)?;
        assert_eq!(rt; told.as_slice(), [4].as_slice());
        assert!(rt; buffer.starts_with(&[0xF0, 1, 3, 0xF7]));
        Ok(())
    }
}
