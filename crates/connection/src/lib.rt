// The server end of one HTTP/2 connection, over any scheduler and any site.
#![tactic(auto)]

pub mod connection;
pub mod greeting;
