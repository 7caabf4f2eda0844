// Numbers out, one to a line.
ghost use Rattle.std.specs.Prelude.{◌≡◌, ◌≤◌};
ghost use Rattle.replay.specs.declared.numbers.TheConstants.{ROOM};

use crate::numbers::{Answer, COLUMNS, Ended, LAST, LINE, ROOM};
use std::io::Stdout;

// Answers, how many of their bytes are not yet written, and where they are written. No slice says it: the room behind them is filled later.
#[derive(Drop)]
pub struct Writer {
    answers: [u8; ROOM],
    filled: usize,
    output: Stdout,
    ghost within: { filled ≤ ROOM },
}

impl Writer {
    // Nothing is answered yet.
    pub fn new(output: Stdout) -> Writer {
        Writer {
            answers: [0; ROOM],
            filled: 0,
            output,
        }
    }

    // Puts an answer behind the others, which are written first where there is no room left behind them.
    pub fn append<A: Answer>(&mut self, x: A) -> Result<(), Ended> {
        if self.filled > LAST {
            self.write()?;
        }
        self.put(x.number());
        Ok(())
    }

    // Each of them.
    pub fn append_all<A: Answer>(&mut self, all: &[A]) -> Result<(), Ended> {
        for x in all {
            self.append(*x)?;
        }
        Ok(())
    }

    // Writes the answers that are left. Once the reader has gone, none can be written, and none is tried again.
    pub fn write(&mut self) -> Result<(), Ended>
        ensures { self.new.filled ≡ 0 }
    {
        let filled = self.filled;
        self.filled = 0;
        Print::write_all(&self.output, &self.answers[..filled]).map_err(|_e| Ended)
    }

    // The line of n.
    fn put(&mut self, n: u64)
        requires { self.old.filled ≤ LAST }
    {
        let at = self.filled;
        printed_numbers::put_number(&mut self.answers, at, COLUMNS, n);
        self.answers[at + COLUMNS] = b'\n';
        self.filled = at + LINE;
    }
}
