//! From blocks of bytes to lines.
ghost use Rattle.std.specs.Prelude.{◌≡◌, IfOk, OnOk};
ghost use Rattle.trace.specs.Counting.{counted};
ghost use Rattle.trace.specs.Laws.{CountsTheStream};
ghost use Rattle.trace.specs.Tracing.{new_tracer, state_of, steps, takes};

use crate::counts::Counts;
use collector::{Collector, LONGEST};
use message::read;
use std::io;
use std::io::Write;
use wording::Words;

/// Collects the messages of a cable and counts them.
// No `impl Model`: `main` reads the field `counts`, and of a type with a model a clause sees the value alone.
#[derive(Drop)]
pub struct Tracer {
    collector: Collector,
    buffer: [u8; LONGEST],
    pub counts: Counts,
}

/// Writes a message's line and counts it.
fn tell<W: Write>(message: &[u8], counts: Counts, out: &mut W) -> io::Result<Counts>
    ensures { IfOk result (λ c. c ≡ counted counts message.now) }
{
    let length = message.len();
    match read(message) {
        Ok(message) => {
            writeln!(out, "{}", Words(message))?;
            Ok(counts.with_message(length, true))
        }
        Err(_) => {
            writeln!(out, "not a MIDI-CI message, {length} bytes")?;
            Ok(counts.with_message(length, false))
        }
    }
}

impl Tracer {
    /// Nothing was read. However a stream is then cut into blocks, the counts are those of the messages that stand in it.
    pub fn new() -> Tracer
        ensures value { state_of result ≡ new_tracer }
        ensures streams { CountsTheStream }
    {
        Tracer {
            collector: Collector::new(),
            buffer: [0; LONGEST],
            counts: Counts::new(),
        }
    }

    /// Takes a byte, and writes a line for the message that it ends.
    fn step<W: Write>(&mut self, byte: u8, out: &mut W) -> io::Result<()>
        ensures { OnOk result (state_of self.new ≡ steps (state_of self.old) byte) }
    {
        // `Ok` alone: a buffer of 512 bytes is never refused, and an `unwrap` would be no plainer.
        if let Ok(Some(n)) = self.collector.feed(byte, &mut self.buffer) {
            self.counts = tell(&self.buffer[0..n], self.counts, out)?;
        }
        Ok(())
    }

    /// Takes a block of bytes, and writes a line for each message that it ends.
    pub fn take<W: Write>(&mut self, block: &[u8], out: &mut W) -> io::Result<()>
        ensures { OnOk result (state_of self.new ≡ takes (state_of self.old) block.now) }
    {
        self.counts = self.counts.with_bytes(block.len());
        for byte in block {
            self.step(*byte, out)?;
        }
        Ok(())
    }
}
