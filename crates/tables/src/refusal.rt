// Why a new size of the dynamic table is refused.
use std::error::Error;
use std::fmt;

// It is above the largest.
#[derive(Clone, Copy, Debug, PartialEq, Eq)]
pub struct TooLarge;

impl fmt::Display for TooLarge {
    fn fmt<W: fmt::Write>(&self, f: &mut fmt::Formatter<W>) -> fmt::Result {
        write!(f, "a table has at most 4096")
    }
}

impl Error for TooLarge {}
