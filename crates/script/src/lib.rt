// The script language of the rig: what one line of a script asks for.
#![tactic(auto)]

pub mod line;
pub mod name;
pub mod number;
pub mod octets;
pub mod offer;
mod part;
pub mod problem;
pub mod word;
