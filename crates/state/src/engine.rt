// The whole state of a connection but for the decoder's table, the scheduler and the site.
ghost use Rattle.std.specs.Prelude.{◌≡◌};
ghost use Rattle.state.specs.Fresh.{fresh};

use crate::queue::Queue;
use crate::streams::{Phase, Streams};
use frames::code::ErrorCode;
use octets::Octets;

#[derive(Clone, Copy)]
pub struct Core {
    pub streams: Streams,
    pub queue: Queue,
    // How many records of the book are written.
    pub recorded: u16,
    // Whether our SETTINGS are sent.
    pub settings_sent: bool,
    // A GOAWAY that is due, with its code.
    pub goaway: Option<ErrorCode>,
}

impl Core {
    // The state of a connection that was just opened: windows of 65,535, no stream, our SETTINGS due.
    pub fn new() -> Core
        ensures { result ≡ fresh }
    {
        let streams = Streams {
            phase: Phase::Open,
            places: [None; 16],
            started: false,
            open_block: None,
            block: Octets::new(),
            seen: 0,
            accepted: 0,
            initial: 65_535,
            window: 65_535,
            owed: 0,
            shrink: false,
        };
        Core {
            streams,
            queue: Queue::new(),
            recorded: 0,
            settings_sent: false,
            goaway: None,
        }
    }
}
