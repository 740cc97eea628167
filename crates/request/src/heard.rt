// What is kept of a field block: fields are judged as they are decoded, and none is stored.
use crate::method::Method;
use crate::path::Path;
use crate::priority::Priority;

// What the first block of a request says of it.
#[derive(Clone, Copy, Debug, PartialEq, Eq)]
pub struct Head {
    pub method: Method,
    pub path: Path,
    pub priority: Priority,
}

// Why a request is malformed; nothing else makes one so.
#[derive(Clone, Copy, Debug, PartialEq, Eq)]
pub enum Malformed {
    // An upper-case letter in a name.
    UpperCase,
    // A name that begins with a colon, other than the four that a request may have.
    UnknownColonName,
    // One of the four a second time.
    Repeated,
    // One of the four after a name without a colon.
    AfterPlain,
    // No :method, no :scheme or no :path.
    Missing,
    // A :path without an octet.
    EmptyPath,
}

// A block is the first of its stream, or the trailers of a request: the stream's place decides that, later.
#[derive(Clone, Copy, Debug, PartialEq, Eq)]
pub struct Heard {
    // The block as the first one.
    pub first: Result<Head, Malformed>,
    // Whether a name begins with a colon, which none may among trailers.
    pub colons: bool,
}
