// What is wrong with a line of a script.
use std::alloc::AllocError;
use thiserror::Error;

#[derive(Clone, Copy, Debug, Error)]
pub enum Problem<'a> {
    #[error("unknown word: {0}")]
    UnknownWord(&'a str),
    #[error("the line ends too early")]
    MissingWord,
    #[error("one word too many: {0}")]
    ExtraWord(&'a str),
    #[error("not an even number of hexadecimal digits: {0}")]
    BadHex(&'a str),
    #[error("not a number from {least} to {most}: {text}")]
    BadNumber {
        text: &'a str,
        least: u32,
        most: u32,
    },
    #[error("settings come before all calls")]
    LateSetting,
    #[error("out of memory")]
    NoMemory,
}

impl<'a> From<AllocError> for Problem<'a> {
    ghost use Rattle.std.specs.Prelude.{◌≡◌};
    ghost use Rattle.script.specs.declared.problem.Problem.TheVariants.{NoMemory};

    ghost from_gives = { λ _ problem. problem ≡ NoMemory };

    fn from(_error: AllocError) -> Problem<'a> {
        Problem::NoMemory
    }
}
