// What a field block is made of (RFC 7541, section 6): representations, read from the block with one cursor.
#![tactic(auto)]

pub mod cursor;
pub mod representation;
