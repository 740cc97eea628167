// One whole frame: whether it may come now, its own rules, and what it does.
ghost use Rattle.std.specs.Prelude.{◌≡◌};
ghost use Rattle.frames.specs.View.{said};
ghost use Rattle.tables.specs.DynamicTable.{IsHeld};
ghost use Rattle.reading.specs.Acting.{data_read, credit_read, acted, may_come, frame_read};

use crate::blocks::read_fragment;
use crate::meeting::{Arrival, arrive};
use crate::next::Next;
use crate::settings::read_settings;
use frames::code::ErrorCode;
use frames::cut::RawFrame;
use frames::fault::Fault;
use frames::flags::Flags;
use frames::frame::Frame;
use frames::header::{Header, Kind};
use state::queue::Reply;
use state::streams::{OpenBlock, Streams};
use tables::table::Table;

// DATA: the whole payload counts against the connection's receiving window, also if its stream has left.
fn data(
    streams: &mut Streams,
    stream: u32,
    octets: &[u8],
    counted: usize,
    end_stream: bool,
) -> Result<Next, Fault>
    ensures { (result, streams.new) ≡ data_read streams.old stream octets.now counted end_stream }
{
    if counted > usize::from(65_535 - streams.owed) {
        return Err(Fault::connection(ErrorCode::FlowControlError, stream));
    }
    streams.owed += counted as u16;
    let arrival = Arrival::Data {
        counted,
        end_stream,
    };
    arrive(streams, stream, arrival, octets)
}

// WINDOW_UPDATE: on stream 0 the connection's sending window, else that of the stream's place.
fn credit(streams: &mut Streams, stream: u32, increment: u32) -> Result<Next, Fault>
    ensures { (result, streams.new) ≡ credit_read streams.old stream increment }
{
    if stream != 0 {
        return arrive(streams, stream, Arrival::Credit(increment), &[]);
    }
    let window = u64::from(streams.window) + u64::from(increment);
    if window > 0x7fff_ffff {
        return Err(Fault::connection(ErrorCode::FlowControlError, 0));
    }
    streams.window = window as u32;
    Ok(Next::Done)
}

// What a frame does.
fn act(streams: &mut Streams, table: &mut Table, frame: Frame<'_>) -> Result<Next, Fault>
    ensures { (result, streams.new, table.new) ≡ acted streams.old table.old (said frame.entry) }
{
    match frame {
        Frame::Data {
            stream,
            octets,
            counted,
            end_stream,
        } => data(streams, stream, octets, counted, end_stream),
        Frame::Headers {
            stream,
            fragment,
            end_headers,
            end_stream,
        } => {
            let block = OpenBlock { stream, end_stream };
            streams.block.clear();
            read_fragment(streams, table, block, fragment, end_headers)
        }
        Frame::Continuation {
            fragment,
            end_headers,
            ..
        } => match streams.open_block {
            None => Ok(Next::Done),
            Some(block) => read_fragment(streams, table, block, fragment, end_headers),
        },
        Frame::RstStream { stream, .. } => arrive(streams, stream, Arrival::Reset, &[]),
        Frame::Settings { list } => read_settings(streams, list),
        Frame::Ping { octets } => Ok(Next::Replies(Reply::PingAck(octets))),
        Frame::WindowUpdate { stream, increment } => credit(streams, stream, increment),
        Frame::Priority { .. }
        | Frame::SettingsAck
        | Frame::PingAck { .. }
        | Frame::GoAway { .. }
        | Frame::Unknown { .. } => Ok(Next::Done),
    }
}

// Whether the frame may come now: SETTINGS without ACK first, and in an open block only its CONTINUATION.
fn admits(streams: &Streams, header: Header) -> bool
    ensures { result ≡ may_come streams.now header }
{
    let first = header.kind == Kind::Settings && !header.flags.has(Flags::ACK);
    let continues = header.kind == Kind::Continuation;
    let fits = match &streams.open_block {
        None => !continues,
        Some(block) => continues && header.stream == block.stream,
    };
    (streams.started || first) && fits
}

// One whole frame: whether it may come now, and what it does.
fn admit(streams: &mut Streams, table: &mut Table, frame: RawFrame<'_>) -> Result<Next, Fault>
    ensures { (result, streams.new, table.new) ≡ frame_read streams.old table.old frame.entry.header frame.entry.payload.now }
{
    let header = frame.header;
    if !admits(streams, header) {
        return Err(Fault::connection(ErrorCode::ProtocolError, header.stream));
    }
    streams.started = true;
    act(streams, table, frame.parse(streams.seen)?)
}

// Reads one whole frame.
pub fn read(streams: &mut Streams, table: &mut Table, frame: RawFrame<'_>) -> Result<Next, Fault>
    ensures value { (result, streams.new, table.new) ≡ frame_read streams.old table.old frame.entry.header frame.entry.payload.now }
    ensures held { IsHeld table.new }
{
    let outcome = admit(streams, table, frame);
    table.size(); // tells that the entries fit
    outcome
}
