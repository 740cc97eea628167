// What the frames that are read act on.
use crate::place::Place;
use octets::Octets;

#[derive(Clone, Copy, Debug, PartialEq, Eq)]
pub enum Phase {
    Open,
    // No new stream is taken.
    Shut,
    // A connection fault came: nothing is read, and only SETTINGS and GOAWAY are written.
    Ended,
}

// A field block whose last fragment has not come: its stream, and whether its HEADERS had END_STREAM. Its octets so far
// stand among the streams, where each fragment is laid behind them, so that no frame copies those that came before.
#[derive(Clone, Copy)]
pub struct OpenBlock {
    pub stream: u32,
    pub end_stream: bool,
}

#[derive(Clone, Copy)]
pub struct Streams {
    pub phase: Phase,
    // The stream of each place, if it has one.
    pub places: [Option<Place>; 16],
    // Whether the first frame was read.
    pub started: bool,
    pub open_block: Option<OpenBlock>,
    // The octets of the open block; where none is open, those of the last.
    pub block: Octets<4096>,
    // The highest stream of any HEADERS.
    pub seen: u32,
    // The last stream that got a place, 0 if none did, as GOAWAY tells it.
    pub accepted: u32,
    // Setting 4 of the peer: what a stream's sending window starts with.
    pub initial: u32,
    // The connection's sending window.
    pub window: u32,
    // Octets counted against the connection's receiving window of 65,535 and not yet topped up.
    pub owed: u16,
    // Whether the next response block begins with a new table size of 0.
    pub shrink: bool,
}
