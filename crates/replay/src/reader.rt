// Numbers in, one to a line: right-justified in 21 columns after spaces, then a line feed.
ghost use Rattle.std.specs.Prelude.{◌≡◌, ◌≤◌};

use crate::numbers::{Ended, LAST, LINE, ROOM, number_in};
use float64::from_bits;
use std::io::{Read, Stdin};

// Lines, where the next one stands among them, and from where they are read. No slice says it: the array is the room that reads fill.
#[derive(Drop)]
pub struct Reader {
    lines: [u8; ROOM],
    at: usize,
    input: Stdin,
}

impl Reader {
    // No line is read yet.
    pub fn new(input: Stdin) -> Reader {
        Reader {
            lines: [0; ROOM],
            at: ROOM,
            input,
        }
    }

    // The next number. The reading ends with the input, and at a line of another form.
    pub fn next(&mut self) -> Result<u64, Ended> {
        if self.at > LAST {
            self.read_lines();
        }
        let at = self.at;
        self.at = at + LINE;
        number_in(&self.lines[at..at + LINE])
    }

    // The next double, given by its bits.
    pub fn next_double(&mut self) -> Result<f64, Ended> {
        let bits = self.next()?;
        Ok(from_bits(bits))
    }

    // The next numbers.
    pub fn numbers<const N: usize>(&mut self) -> Result<[u64; N], Ended> {
        let mut all = [0u64; N];
        for x in &mut all {
            *x = self.next()?;
        }
        Ok(all)
    }

    // The next doubles.
    pub fn doubles<const N: usize>(&mut self) -> Result<[f64; N], Ended> {
        let mut all = [0.0; N];
        self.fill(&mut all)?;
        Ok(all)
    }

    // As many doubles as there is room for.
    pub fn fill(&mut self, all: &mut [f64]) -> Result<(), Ended> {
        for x in all.iter_mut() {
            *x = self.next_double()?;
        }
        Ok(())
    }

    // Passes over n numbers that the answer does not depend on.
    pub fn skip(&mut self, n: u64) -> Result<(), Ended> {
        for _turn in 0..n {
            self.next()?;
        }
        Ok(())
    }

    // Lines in the place of those that are taken. A zero marks where the input ends: no line has one, so what an earlier read left behind it
    // is not taken again.
    fn read_lines(&mut self)
        ensures { self.new.at ≡ 0 }
    {
        let end = read_full(self.input, &mut self.lines);
        if end < ROOM {
            self.lines[end] = 0;
        }
        self.at = 0;
    }
}

// Reads until the lines are full, the input ends or a read fails, and answers how many bytes it put at their start.
fn read_full(input: Stdin, lines: &mut [u8; ROOM]) -> usize
    ensures { result ≤ ROOM }
{
    let mut from = input;
    let mut done = 0;
    // A read may fill any part of the room.
    while done < ROOM {
        let Ok(n) = from.read(&mut lines[done..]) else {
            return done;
        };
        if n == 0 {
            return done;
        }
        done += n;
    }
    done
}
