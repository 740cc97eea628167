// HTTP/2 frames, written and read whole: a frame that is written and read again is the frame that was meant.
#![tactic(auto)]

pub mod outgoing;
pub mod read;
