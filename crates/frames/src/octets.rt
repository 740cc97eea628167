// Numbers as octets, the highest octet first.
pub use frame_header::octets::be31;
