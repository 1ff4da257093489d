//! Tells what went over a MIDI cable: a line for each whole System Exclusive message, and counts at the end.
#![tactic(auto)]

mod counts;
mod tracer;

use std::io;
use std::io::{BufWriter, Read, Write};
use std::process::ExitCode;
use tracer::Tracer;

/// How many bytes are read at a time.
const BLOCK: usize = 65536;

/// Traces standard input to standard output.
fn run(rt: &HostRuntime) -> io::Result<()> {
    let mut input = rt.stdin();
    let mut out = BufWriter::new(rt.alloc(), rt.stdout())?;
    let mut block = vec![in rt.alloc(); 0u8; BLOCK]?;
    let mut tracer = Tracer::new();
    // a rule: nothing runs for ever. Nothing says that an input ends, so the turns are counted
    for _ in 0..u64::MAX {
        let n = input.read(block.as_mut_slice())?;
        if n == 0 {
            break;
        }
        tracer.take(&block.as_slice()[0..n], &mut out)?;
    }
    writeln!(out, "{}", tracer.counts)?;
    out.flush()
}

fn main(rt: HostRuntime) -> ExitCode {
    match run(&rt) {
        Ok(()) => ExitCode::SUCCESS,
        Err(e) => {
            let _ = eprintln!(rt; "trace: {e}");
            ExitCode::FAILURE
        }
    }
}
