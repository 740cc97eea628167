// What is wrong with a frame: how far it reaches, why, and where.
ghost use Rattle.std.specs.Prelude.{◌≡◌};

use crate::code::ErrorCode;

// A connection fault ends the connection; a stream fault ends one stream.
#[derive(Clone, Copy, Debug, PartialEq, Eq)]
pub enum Scope {
    Connection,
    Stream,
}

// `place` is the frame's stream number. (For a field block that cannot be decoded it is the offset, within the block, of
// the representation at fault; that fault is made where blocks are decoded.)
#[derive(Clone, Copy, Debug, PartialEq, Eq)]
pub struct Fault {
    pub scope: Scope,
    pub code: ErrorCode,
    pub place: u32,
}

impl Fault {
    ghost use Rattle.frames.specs.Fault.{connection_fault, stream_fault};

    // A fault of the connection, told at a place.
    pub fn connection(code: ErrorCode, place: u32) -> Fault
        ensures { result ≡ connection_fault code place }
    {
        Fault {
            scope: Scope::Connection,
            code,
            place,
        }
    }

    // A fault of one stream.
    pub fn stream(code: ErrorCode, stream: u32) -> Fault
        ensures { result ≡ stream_fault code stream }
    {
        Fault {
            scope: Scope::Stream,
            code,
            place: stream,
        }
    }
}
