// The two schedulers, chosen at run time, and their worked values.
#![tactic(auto)]

pub mod policy;
pub mod worked;
