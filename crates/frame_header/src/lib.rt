// The nine octets before the payload of every HTTP/2 frame: its length, type, flags and stream.
#![tactic(auto)]

pub mod flags;
pub mod header;
pub mod octets;
