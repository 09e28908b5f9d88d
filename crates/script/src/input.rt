//! The script on standard input, line after line.
ghost use Rattle.std.specs.Io.Iter.{lines_left};
ghost use Rattle.std.specs.Iterator.{at_most};

use std::io::{self, BufRead, BufReader, Lines, Stdin};

/// The lines that are left, and how many were read.
#[derive(Drop)]
pub struct Input {
    lines: Lines<BufReader<Stdin>>,
    number: u64,
}

impl Input {
    pub fn new(rt: &HostRuntime) -> io::Result<Input> {
        Ok(Input {
            lines: BufReader::new(rt.alloc(), rt.stdin())?.lines(rt.alloc()),
            number: 0,
        })
    }

    /// The number of the line that was read last, from 1.
    pub fn number(&self) -> u64 {
        self.number
    }
}

impl Iterator for Input {
    type Item = io::Result<String>;

    ghost remaining = { λ input. at_most (lines_left input.lines) };

    fn next(&mut self) -> Option<io::Result<String>> {
        self.number = self.number.saturating_add(1);
        self.lines.next()
    }
}
