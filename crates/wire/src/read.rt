// One frame from the front of what came, and what it says.
ghost use Rattle.std.specs.Prelude.{◌≡◌};
ghost use Rattle.frames.specs.View.{ok_view};
ghost use Rattle.wire.specs.Read.{read_of, ReadsBack};
ghost use Rattle.wire.specs.View.{read_view};

use frames::cut::{Unread, cut_frame};
use frames::frame::Frame;

// `length` is how many octets the frame has, header and payload.
#[derive(Clone, Copy)]
pub struct Read<'a> {
    pub frame: Frame<'a>,
    pub length: usize,
}

// Reads one frame; octets behind it are not looked at. `seen` is the highest stream of any HEADERS so far. The octets of a
// frame that was written, whatever stands behind them, are read as what was meant.
pub fn read_frame(octets: &[u8], seen: u32) -> Result<Read<'_>, Unread>
    ensures value { ok_view read_view result ≡ read_of octets.now seen }
    ensures back { ReadsBack octets.now seen (ok_view read_view result) }
{
    let raw = cut_frame(octets)?;
    let frame = raw.parse(seen)?;
    Ok(Read {
        frame,
        length: 9 + raw.payload.len(),
    })
}
