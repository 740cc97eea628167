// What a connection knows: its sixteen places, the open field block, windows, replies that wait, and what is due.
#![tactic(auto)]

pub mod engine;
pub mod place;
pub mod queue;
pub mod refusal;
pub mod search;
pub mod streams;
