// HTTP/2 frames as octets: one frame is cut from what came, and read into a `Frame` or a `Fault`.
#![tactic(auto)]

pub mod code;
pub mod cut;
pub mod fault;
pub mod flags;
pub mod frame;
pub mod header;
pub mod octets;
pub mod parse;
pub mod settings;
