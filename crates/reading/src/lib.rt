// What a frame does to the streams of a connection.
#![tactic(auto)]

pub mod acting;
mod blocks;
pub mod meeting;
pub mod next;
mod settings;
