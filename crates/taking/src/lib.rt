// One frame taken: the questions before it, what it does, faults, and the end of a request. All of `take` but for the
// site.
#![tactic(auto)]

pub mod ending;
pub mod taking;
