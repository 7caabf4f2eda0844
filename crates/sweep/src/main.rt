// Reads a sheet on standard input and prints the cases that its breakers do not meet, a line each, then a line of totals; or the
// rule that the sheet breaks and the line that shows it. How far it is goes to standard error.
#![tactic(auto)]

ghost use Rattle.std.specs.Prelude.{IfOk, MatchOption, ⊤};
ghost use Rattle.sweep.specs.Turns.{Within, IsRead};

mod listing;
mod output;
mod progress;

use sheet::Reading;
use std::io;
use std::io::{ErrorKind, Read};

// A loop has to end, and no input has more pieces than this.
const TURNS: u64 = u64::MAX;

// Reads once, and answers how many bytes it got, or none at the end. A call that a signal interrupts has got nothing, and is no failure.
fn read_some(rt: &impl Input, buffer: &mut [u8; 65536]) -> io::Result<Option<usize>>
    ensures { Within result buffer.new }
{
    match rt.reader().read(buffer) {
        Ok(0) => Ok(None),
        Ok(n) => Ok(Some(n)),
        Err(e) if e.kind() == ErrorKind::Interrupted => Ok(Some(0)),
        Err(e) => Err(e),
    }
}

// Reads until the input ends, or nothing that follows can change the answer. None after as many pieces as there can be, since the input has not ended then.
fn read_sheet(rt: &impl Input) -> io::Result<Option<Reading>>
    ensures { IfOk result (λ read. MatchOption read ⊤ IsRead) }
{
    let mut buffer = [0; 65536];
    let mut reading = sheet::start();
    for _turn in 0..TURNS {
        let Some(n) = read_some(rt, &mut buffer)? else {
            return Ok(Some(reading));
        };
        reading = sheet::feed(reading, &buffer[..n]);
        if sheet::stopped(reading) {
            return Ok(Some(reading));
        }
    }
    Ok(None)
}

// An input that cannot be read, or does not end, is not answered. Nothing is left to do where an answer cannot be written.
fn main(rt: HostRuntime) {
    let _ = match read_sheet(&rt) {
        Ok(Some(reading)) => listing::print_answer(&rt, sheet::answer(reading)),
        Ok(None) => Ok(()),
        Err(e) => eprintln!(rt; "standard input: {e}"),
    };
}
