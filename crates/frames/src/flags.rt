// The flags of a frame, by their names.
pub use frame_header::flags::Flags;
