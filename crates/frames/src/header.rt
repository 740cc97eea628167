// The types of frames, and the nine octets before every payload.
pub use frame_header::header::{Header, HeaderOctets, Kind};
