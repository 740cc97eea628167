// The shelf: a site over lent octets.
#![tactic(auto)]

mod copy;
mod entries;
pub mod lends;
pub mod refusal;
pub mod shelf;
pub mod sound;
