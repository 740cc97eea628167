// What a run of picks leaves: each pick, and why the run stopped.

#[derive(Clone, Copy, PartialEq, Eq, Debug)]
pub struct Pick {
    pub place: usize,
    pub charge: u32,
}

#[derive(Clone, Copy, PartialEq, Eq, Debug)]
pub enum Stop {
    // No row of offers is left.
    Spent,
    // There is no room for a further pick.
    Full,
    // No place offers in the next row.
    Idle,
}

// How many picks were made, and why no more.
#[derive(Clone, Copy, PartialEq, Eq, Debug)]
pub struct Outcome {
    pub made: usize,
    pub stop: Stop,
}
