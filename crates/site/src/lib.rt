// Sites: named octets that a server reads from, behind one meaning; and the simplest of them, the line test.
#![tactic(auto)]

pub mod digits;
pub mod line;
pub mod site;
pub mod span;
pub mod table;
