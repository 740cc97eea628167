// Requests: what is malformed, what its priority is, what an ended request gets, and the book's records.
#![tactic(auto)]

pub mod block;
pub mod heard;
mod kind;
mod members;
pub mod method;
pub mod path;
pub mod priority;
pub mod record;
pub mod route;
pub mod summary;
