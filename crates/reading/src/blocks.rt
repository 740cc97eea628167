// Field blocks: fragments are joined, a closed block is always decoded, and only then its stream is judged.
ghost use Rattle.std.specs.Prelude.{◌≡◌};
ghost use Rattle.reading.specs.Blocks.{place_for, accepted, judged, opened, heard_by, closed, fragment_read};

use crate::meeting::{Arrival, arrive};
use crate::next::Next;
use frames::code::ErrorCode;
use frames::fault::Fault;
use octets::Octets;
use request::block::read_block;
use request::heard::{Head, Heard, Malformed};
use state::place::{Place, Request, Stage};
use state::search::{lowest_free, place_of, put};
use state::streams::{OpenBlock, Phase, Streams};
use tables::table::Table;

// The place of a stream whose first block was read.
fn make_place(stream: u32, head: Head) -> Place
    ensures { result ≡ place_for stream head }
{
    let request = Request {
        method: head.method,
        path: head.path,
        body: Octets::new(),
        counted: 0,
    };
    Place {
        stream,
        increments: 0,
        priority: head.priority,
        stage: Stage::Receiving(request),
    }
}

// A well-formed request gets the lowest free place, or is refused.
fn accept(streams: &mut Streams, stream: u32, end_stream: bool, head: Head) -> Result<Next, Fault>
    ensures { (result, streams.new) ≡ accepted streams.old stream end_stream head }
{
    let k = lowest_free(&streams.places).ok_or(Fault::stream(ErrorCode::RefusedStream, stream))?;
    put(&mut streams.places, k, Some(make_place(stream, head)));
    streams.accepted = stream;
    Ok(if end_stream {
        Next::Ends(k)
    } else {
        Next::Done
    })
}

// A new stream. It is seen in any case; once the connection is shut it is dropped.
fn start(
    streams: &mut Streams,
    block: OpenBlock,
    first: Result<Head, Malformed>,
) -> Result<Next, Fault>
    ensures { (result, streams.new) ≡ opened streams.old block first }
{
    streams.seen = block.stream;
    if streams.phase == Phase::Shut {
        return Ok(Next::Done);
    }
    let head = first.map_err(|_| Fault::stream(ErrorCode::ProtocolError, block.stream))?;
    accept(streams, block.stream, block.end_stream, head)
}

// A decoded block: trailers where the stream has a place; dropped where it has left; else the stream is new.
fn hear(streams: &mut Streams, block: OpenBlock, heard: Heard) -> Result<Next, Fault>
    ensures { (result, streams.new) ≡ heard_by streams.old block heard }
{
    if place_of(&streams.places, block.stream).is_some() {
        let arrival = Arrival::Trailers {
            end_stream: block.end_stream,
            colons: heard.colons,
        };
        return arrive(streams, block.stream, arrival, &[]);
    }
    if block.stream <= streams.seen {
        return Ok(Next::Done);
    }
    start(streams, block, heard.first)
}

// A closed block is decoded, whatever became of its stream. (By `map_err` and `?` it was tried: the kit's borrow
// checker then doesn't find the type of a head inside what was heard, which it calls a bug of its own.)
fn close(streams: &mut Streams, table: &mut Table, block: OpenBlock) -> Result<Next, Fault>
    ensures { (result, streams.new, table.new) ≡ closed streams.old table.old block }
{
    match read_block(table, streams.block.as_slice()) {
        Err(place) => Err(Fault::connection(ErrorCode::CompressionError, place as u32)),
        Ok(heard) => hear(streams, block, heard),
    }
}

// One more fragment of a block, whose octets so far stand among the streams; `last` closes it.
pub fn read_fragment(
    streams: &mut Streams,
    table: &mut Table,
    block: OpenBlock,
    fragment: &[u8],
    last: bool,
) -> Result<Next, Fault>
    ensures { (result, streams.new, table.new) ≡ fragment_read streams.old table.old block fragment.now last }
{
    streams.block.try_extend(fragment).map_err(|_| Fault::connection(
        ErrorCode::EnhanceYourCalm,
        block.stream,
    ))?;
    if last {
        streams.open_block = None;
        return close(streams, table, block);
    }
    streams.open_block = Some(block);
    Ok(Next::Done)
}
