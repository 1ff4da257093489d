//! Reads a sheet on standard input and tells the instrument in words, or why the sheet is refused, with status 1.
#![tactic(auto)]

mod instrument;

ghost use Rattle.std.specs.Prelude.{◌≤◌, length, IfOk};

use instrument::write_instrument;
use sheet::read_sheet;
use std::io;
use std::io::{BufWriter, Read, Write};
use std::process::ExitCode;

/// One word more than a sheet may have: what does not fit here is too long in any case.
const ROOM: usize = 788;

/// Fills the buffer from standard input, and tells how many bytes there were.
// Into a fixed buffer and no `Vec`: so reading a sheet never fails for want of memory.
fn fill(rt: &HostRuntime, buffer: &mut [u8]) -> io::Result<usize>
    ensures { IfOk result (λ n. n ≤ length buffer.old) }
{
    let mut input = rt.stdin();
    let mut filled = 0;
    while filled < buffer.len() {
        let n = input.read(&mut buffer[filled..])?;
        if n == 0 {
            break;
        }
        filled += n;
    }
    Ok(filled)
}

/// Tells what the sheet on standard input says, and gives the status: a failure where the sheet is refused.
fn run(rt: &HostRuntime) -> io::Result<ExitCode> {
    let mut buffer = [0; ROOM];
    let length = fill(rt, &mut buffer)?;
    let mut out = BufWriter::new(rt.alloc(), rt.stdout())?;
    let code = match read_sheet(&buffer[0..length]) {
        Ok(sheet) => {
            write_instrument(&mut out, &sheet)?;
            ExitCode::SUCCESS
        }
        Err(refusal) => {
            let number = refusal.refusal.number();
            writeln!(out, "refused ({number}), {refusal}")?;
            ExitCode::FAILURE
        }
    };
    out.flush()?;
    Ok(code)
}

fn main(rt: HostRuntime) -> ExitCode {
    match run(&rt) {
        Ok(code) => code,
        Err(e) => {
            let _ = eprintln!(rt; "check_sheet: {e}");
            ExitCode::FAILURE
        }
    }
}
