// A place: one of sixteen, each of which serves one stream at a time.
use hpack::status::Status;
use octets::Octets;
use request::method::Method;
use request::path::Path;
use request::priority::Priority;

//            first block                 END_STREAM, POST to /book
//   (free) -------------> Receiving -----------------------------> Waiting
//     ^                       |                                       | claim
//     |                       | END_STREAM, any other request         v
//     |                       v                      answer        Claimed
//     +------------------- Sending <----------------------------------+
//       END_STREAM sent
//
// RST_STREAM, a stream fault and a connection fault free the place in any state.

// A request whose end has not come.
#[derive(Clone, Copy)]
pub struct Request {
    pub method: Method,
    pub path: Path,
    // What came of the body.
    pub body: Octets<256>,
    // Octets of whole payloads, which count against the stream's receiving window.
    pub counted: u16,
}

// A response, from the moment that it is known until END_STREAM is sent.
#[derive(Clone, Copy)]
pub struct Response {
    pub status: Status,
    // Whether DATA follows HEADERS: on 200 to a GET. (An empty resource has none to send.) It stands beside the size,
    // and not round it, since the answer to a HEAD tells a size and has no body.
    pub has_body: bool,
    // The octets of the resource, and how many of them are sent.
    pub size: u32,
    pub sent: u32,
    // Whether HEADERS are sent.
    pub announced: bool,
}

#[derive(Clone, Copy)]
pub enum Stage {
    Receiving(Request),
    // Its stop stands in the book, in the record of this number.
    Waiting(u16),
    Claimed,
    Sending(Response),
}

// The sending window is setting 4, plus the increments that were read, less the octets that were sent. It may be below
// zero, so it is never subtracted: its parts are compared.
#[derive(Clone, Copy)]
pub struct Place {
    pub stream: u32,
    pub increments: u64,
    pub priority: Priority,
    pub stage: Stage,
}
