// What comes for a stream meets the state of the stream's place.
ghost use Rattle.std.specs.Prelude.{◌≡◌};
ghost use Rattle.reading.specs.Meeting.{received, trailed, credited, met, kept, arrived};

use crate::next::Next;
use frames::code::ErrorCode;
use frames::fault::Fault;
use state::place::{Place, Request, Stage};
use state::search::{place_of, put, sent, slot_at};
use state::streams::Streams;

// What came for a stream; the body that DATA brings is lent beside it. (An enum that borrowed it would need a view with
// a list in its place, and each definition that case once more.)
#[derive(Clone, Copy)]
pub enum Arrival {
    // DATA: the length of its whole payload, and END_STREAM.
    Data { counted: usize, end_stream: bool },
    // A field block behind the first: whether it came with END_STREAM, and whether it has names with a colon.
    Trailers { end_stream: bool, colons: bool },
    // WINDOW_UPDATE with its increment.
    Credit(u32),
    // RST_STREAM.
    Reset,
}

// What becomes of the place.
#[derive(Clone, Copy)]
pub enum Met {
    Stays(Place),
    // The place stays, and its request has ended.
    Ends(Place),
    Leaves,
}

// DATA for a request: within the stream's receiving window, and a body of at most 256 octets.
fn receive(
    place: Place,
    request: Request,
    octets: &[u8],
    counted: usize,
    end_stream: bool,
) -> Result<Met, ErrorCode>
    ensures { result ≡ received place request octets.now counted end_stream }
{
    if counted > 65_535 - usize::from(request.counted) {
        return Err(ErrorCode::FlowControlError);
    }
    let mut body = request.body;
    body.try_extend(octets)
        .map_err(|_| ErrorCode::EnhanceYourCalm)?;
    let stage = Stage::Receiving(Request {
        body,
        counted: request.counted + counted as u16,
        ..request
    });
    let place = Place { stage, ..place };
    Ok(if end_stream {
        Met::Ends(place)
    } else {
        Met::Stays(place)
    })
}

// More room in the place's sending window.
fn credit(place: Place, initial: u32, increment: u32) -> Result<Met, ErrorCode>
    ensures { result ≡ credited place initial increment }
{
    if increment == 0 {
        return Err(ErrorCode::ProtocolError);
    }
    let increments = u128::from(place.increments) + u128::from(increment);
    if u128::from(initial) + increments > 0x7fff_ffff + u128::from(sent(place.stage)) {
        return Err(ErrorCode::FlowControlError);
    }
    Ok(Met::Stays(Place {
        increments: increments as u64,
        ..place
    }))
}

// The table of states and arrivals.
fn meet(place: Place, initial: u32, arrival: Arrival, body: &[u8]) -> Result<Met, ErrorCode>
    ensures { result ≡ met place place.stage initial arrival body.now }
{
    match (place.stage, arrival) {
        (
            Stage::Receiving(request),
            Arrival::Data {
                counted,
                end_stream,
            },
        ) => receive(place, request, body, counted, end_stream),
        (
            Stage::Receiving(_),
            Arrival::Trailers {
                end_stream: true,
                colons: false,
            },
        ) => Ok(Met::Ends(place)),
        (Stage::Receiving(_), Arrival::Trailers { .. }) => Err(ErrorCode::ProtocolError),
        (
            Stage::Waiting(_) | Stage::Claimed | Stage::Sending(_),
            Arrival::Data { .. } | Arrival::Trailers { .. },
        ) => Err(ErrorCode::StreamClosed),
        (_, Arrival::Credit(increment)) => credit(place, initial, increment),
        (_, Arrival::Reset) => Ok(Met::Leaves),
    }
}

// The place afterwards, and what is left to do.
fn keep(streams: &mut Streams, k: usize, met: Met) -> Next
    ensures { (result, streams.new) ≡ kept streams.old k met }
{
    match met {
        Met::Stays(place) => {
            put(&mut streams.places, k, Some(place));
            Next::Done
        }
        Met::Ends(place) => {
            put(&mut streams.places, k, Some(place));
            Next::Ends(k)
        }
        Met::Leaves => {
            put(&mut streams.places, k, None);
            Next::Done
        }
    }
}

// What comes for a stream that has left is dropped. `body` is empty but for DATA. (A place is some 400 octets, which
// `map_err` and `?` copy once more each.)
pub fn arrive(
    streams: &mut Streams,
    stream: u32,
    arrival: Arrival,
    body: &[u8],
) -> Result<Next, Fault>
    ensures { (result, streams.new) ≡ arrived streams.old stream arrival body.now }
{
    let Some(k) = place_of(&streams.places, stream) else {
        return Ok(Next::Done);
    };
    let Some(place) = slot_at(&streams.places, k) else {
        return Ok(Next::Done);
    };
    match meet(place, streams.initial, arrival, body) {
        Ok(met) => Ok(keep(streams, k, met)),
        Err(code) => Err(Fault::stream(code, stream)),
    }
}
