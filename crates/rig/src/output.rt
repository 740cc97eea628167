// Where the rig prints what the lines of a script did.
use std::{fmt, io};

// The runtime, and the number that a line has in the script: what the line did is printed behind it.
#[derive(Clone, Copy)]
pub struct Output<'r> {
    pub rt: &'r HostRuntime,
    pub line: usize,
}

impl<'r> Output<'r> {
    pub fn tell<D: fmt::Display + Drop>(self, outcome: D) -> io::Result<()> {
        println!(self.rt; "{} {outcome}", self.line)
    }
}
