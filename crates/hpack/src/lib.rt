// HPACK (RFC 7541) without Huffman coding: field blocks decoded, and response blocks written.
#![tactic(auto)]

pub mod decode;
pub mod response;
pub mod status;
