// The frames that the engine sends, and how each is written.
ghost use Rattle.std.specs.Prelude.{◌≡◌, ℕ, length};
ghost use Rattle.wire.specs.Write.{header_for, header_sent, put, written};
ghost use Rattle.wire.specs.View.{sent, sends_data};

use frames::code::ErrorCode;
use frames::cut::LONGEST;
use frames::flags::Flags;
use frames::header::{Header, HeaderOctets, Kind};
use std::num::TryFromIntError;

// A frame that the engine sends.
#[derive(Clone, Copy)]
pub enum Outgoing<'a> {
    // Ours: at most 16 concurrent streams, and no old priorities.
    Settings,
    SettingsAck,
    PingAck {
        octets: [u8; 8],
    },
    RstStream {
        stream: u32,
        code: ErrorCode,
    },
    WindowUpdate {
        stream: u32,
        increment: u32,
    },
    GoAway {
        last: u32,
        code: ErrorCode,
    },
    // With a whole field block.
    Headers {
        stream: u32,
        block: &'a [u8],
        end: bool,
    },
    // Only the header: the payload of `length` octets is filled in behind it.
    DataHeader {
        stream: u32,
        length: u32,
        end: bool,
    },
}

// Why a frame was not written; the buffer is as it was.
#[derive(Clone, Copy, PartialEq, Eq, Debug)]
pub enum Unwritten {
    // The payload is longer than a frame's may be.
    TooLong,
    // The buffer is shorter than the frame.
    NoRoom,
}

// A length that no 32 bits hold is longer than a frame's may be.
impl From<TryFromIntError> for Unwritten {
    ghost use Rattle.wire.specs.declared.outgoing.Unwritten.TheVariants.{TooLong};

    ghost from_gives = { λ _ e. e ≡ TooLong };

    fn from(_: TryFromIntError) -> Self {
        Self::TooLong
    }
}

// The two pairs of our SETTINGS: MAX_CONCURRENT_STREAMS (3) is 16, NO_RFC7540_PRIORITIES (9) is 1.
const OUR_SETTINGS: [u8; 12] = [0, 3, 0, 0, 0, 16, 0, 9, 0, 0, 0, 1];

// Writes a header and the octets behind it to the front of the buffer; DATA's header announces more than stands behind it.
fn put_octets(buffer: &mut [u8], header: Header, octets: &[u8]) -> Result<usize, Unwritten>
    ensures { (result, buffer.new) ≡ put header octets.now buffer.old }
{
    if header.length > LONGEST {
        return Err(Unwritten::TooLong);
    }
    let (front, rest) = buffer.split_first_chunk_mut().ok_or(Unwritten::NoRoom)?;
    let (place, _) = rest
        .split_at_mut_checked(octets.len())
        .ok_or(Unwritten::NoRoom)?;
    *front = HeaderOctets::from(header);
    place.copy_from_slice(octets);
    Ok(9 + octets.len())
}

// Writes a frame with its whole payload to the front of the buffer; the header announces the payload's length.
fn put_frame(
    buffer: &mut [u8],
    kind: Kind,
    flags: Flags,
    stream: u32,
    payload: &[u8],
) -> Result<usize, Unwritten>
    ensures { (result, buffer.new) ≡ put (header_for kind flags.bits stream (length payload.now)) payload.now buffer.old }
{
    let length = u32::try_from(payload.len())?;
    let header = Header {
        length,
        kind,
        flags,
        stream,
    };
    put_octets(buffer, header, payload)
}

// The header of DATA, whose payload is still to come.
fn data_header(stream: u32, length: u32, end: bool) -> Header
    ensures { result ≡ header_sent (sends_data stream length end) }
{
    Header {
        length,
        kind: Kind::Data,
        flags: Flags::END_STREAM.when(end),
        stream,
    }
}

impl Outgoing<'_> {
    // Writes the frame to the front of the buffer and answers how many octets that took; what stood behind them stays.
    pub fn write(self, buffer: &mut [u8]) -> Result<usize, Unwritten>
        ensures { (result, buffer.new) ≡ written (sent self.entry) buffer.old }
    {
        match self {
            Outgoing::Settings => put_frame(buffer, Kind::Settings, Flags::NONE, 0, &OUR_SETTINGS),
            Outgoing::SettingsAck => put_frame(buffer, Kind::Settings, Flags::ACK, 0, &[]),
            Outgoing::PingAck { octets } => put_frame(buffer, Kind::Ping, Flags::ACK, 0, &octets),
            Outgoing::RstStream { stream, code } => {
                let number = u32::from(code).to_be_bytes();
                put_frame(buffer, Kind::RstStream, Flags::NONE, stream, &number)
            }
            Outgoing::WindowUpdate { stream, increment } => {
                let number = (increment % 0x8000_0000).to_be_bytes();
                put_frame(buffer, Kind::WindowUpdate, Flags::NONE, stream, &number)
            }
            Outgoing::GoAway { last, code } => {
                let numbers = [
                    (last % 0x8000_0000).to_be_bytes(),
                    u32::from(code).to_be_bytes(),
                ];
                put_frame(buffer, Kind::GoAway, Flags::NONE, 0, numbers.as_flattened())
            }
            Outgoing::Headers { stream, block, end } => {
                let flags = Flags::END_HEADERS | Flags::END_STREAM.when(end);
                put_frame(buffer, Kind::Headers, flags, stream, block)
            }
            Outgoing::DataHeader {
                stream,
                length,
                end,
            } => put_octets(buffer, data_header(stream, length, end), &[]),
        }
    }
}
