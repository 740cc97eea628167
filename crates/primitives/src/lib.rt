// What a field block is written in (RFC 7541, section 5): integers behind a prefix, and strings, without Huffman coding.
#![tactic(auto)]

pub mod integer;
pub mod string;
