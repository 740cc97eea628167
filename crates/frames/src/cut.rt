// One frame from the front of what came.
ghost use Rattle.std.specs.Prelude.{◌≡◌};
ghost use Rattle.frames.specs.Cut.{cut_of, longest};
ghost use Rattle.frames.specs.View.{ok_view, raw_view};

use crate::code::ErrorCode;
use crate::fault::Fault;
use crate::header::Header;

// The longest payload that a frame may have, read or written.
pub const LONGEST: u32 = 16_384;

// Why nothing was done; everything is as it was.
#[derive(Clone, Copy, Debug, PartialEq, Eq)]
pub enum Refusal {
    // The frame is not whole yet: give its octets again with those that follow.
    Incomplete,
}

// The refusal's number.
impl From<Refusal> for u8 {
    ghost use Rattle.frames.specs.Cut.{refusal_number};

    ghost from_gives = { λ refusal number. number ≡ refusal_number refusal };

    fn from(refusal: Refusal) -> u8 {
        match refusal {
            Refusal::Incomplete => 22,
        }
    }
}

// Why no frame was read: it was refused, or it is at fault.
#[derive(Clone, Copy, Debug, PartialEq, Eq)]
pub enum Unread {
    Refused(Refusal),
    Faulty(Fault),
}

impl From<Refusal> for Unread {
    ghost use Rattle.frames.specs.declared.cut.Unread.TheVariants.{Refused};

    ghost from_gives = { λ refusal unread. unread ≡ Refused refusal };

    fn from(refusal: Refusal) -> Unread {
        Unread::Refused(refusal)
    }
}

impl From<Fault> for Unread {
    ghost use Rattle.frames.specs.declared.cut.Unread.TheVariants.{Faulty};

    ghost from_gives = { λ fault unread. unread ≡ Faulty fault };

    fn from(fault: Fault) -> Unread {
        Unread::Faulty(fault)
    }
}

// One whole frame, where it stands in the octets that came; nothing of it is judged but its length.
#[derive(Clone, Copy)]
pub struct RawFrame<'a> {
    pub header: Header,
    pub payload: &'a [u8],
}

// The first frame of the octets. Its length field is judged as soon as nine octets are there, before the payload is.
pub fn cut_frame(octets: &[u8]) -> Result<RawFrame<'_>, Unread>
    ensures { ok_view raw_view result ≡ cut_of octets.now }
{
    let (header, rest) = Header::split(octets).ok_or(Refusal::Incomplete)?;
    if header.length > LONGEST {
        return Err(Fault::connection(ErrorCode::FrameSizeError, header.stream).into());
    }
    let payload = rest
        .get(..header.length as usize)
        .ok_or(Refusal::Incomplete)?;
    Ok(RawFrame { header, payload })
}
