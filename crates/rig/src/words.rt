// What a call did, as one line of the rig's output: `LINE CALL OUTCOME`, and after `#` a reading for people.
ghost use Rattle.std.specs.Prelude.{◌≡◌, codes, if◌then◌else◌};

use frames::code::{ErrorCode, UnknownCode};
use frames::fault::{Fault, Scope};
use frames::frame::Frame;
use frames::header::Header;
use frames::settings::{Setting, SettingsList};
use slices::survey::Survey;
use std::fmt;
use std::iter::{once, repeat};

// The number of an error code and its name, if it has one.
#[derive(Clone, Copy)]
pub struct Code(pub u32);

impl fmt::Display for Code {
    fn fmt<W: fmt::Write>(&self, f: &mut fmt::Formatter<W>) -> fmt::Result {
        match ErrorCode::try_from(self.0) {
            Ok(code) => write!(f, "{code}"),
            Err(UnknownCode(number)) => write!(f, "error code {number}"),
        }
    }
}

// The pairs of a SETTINGS frame.
#[derive(Clone, Copy)]
pub struct Pairs<'a>(pub SettingsList<'a>);

impl fmt::Display for Pairs<'_> {
    fn fmt<W: fmt::Write>(&self, f: &mut fmt::Formatter<W>) -> fmt::Result {
        let marks = once(":").chain(repeat(","));
        for (mark, Setting { name, value }) in marks.zip(self.0.iter()) {
            write!(f, "{mark} {name} = {value}")?;
        }
        Ok(())
    }
}

// Whether a field block goes on in the next frame.
fn rest(end_headers: bool) -> &'static str
    ensures { result.now ≡ (if end_headers then codes "the block is whole" else codes "more to come") }
{
    if end_headers {
        "the block is whole"
    } else {
        "more to come"
    }
}

// Whether a frame ends its request.
fn end(end_stream: bool) -> &'static str
    ensures { result.now ≡ (if end_stream then codes ", ends the request" else codes "") }
{
    if end_stream { ", ends the request" } else { "" }
}

// What a frame says.
#[derive(Clone, Copy)]
pub struct Said<'a>(pub Frame<'a>);

impl fmt::Display for Said<'_> {
    fn fmt<W: fmt::Write>(&self, f: &mut fmt::Formatter<W>) -> fmt::Result {
        match self.0 {
            Frame::Priority { stream } => write!(f, "PRIORITY on stream {stream}: ignored"),
            Frame::RstStream { stream, code } => {
                write!(f, "RST_STREAM on stream {stream}: {}", Code(code))
            }
            Frame::Settings { list } => write!(f, "SETTINGS{}", Pairs(list)),
            Frame::SettingsAck => f.write_str("SETTINGS with ACK"),
            Frame::Ping { octets } => {
                let data = u64::from_be_bytes(octets);
                write!(f, "PING {data:016x}, to be answered")
            }
            Frame::PingAck { octets } => {
                let data = u64::from_be_bytes(octets);
                write!(f, "PING {data:016x} with ACK")
            }
            Frame::GoAway { last, code, debug } => {
                let (code, n) = (Code(code), debug.len());
                write!(f, "GOAWAY: last stream {last}, {code}, debug octets: {n}")
            }
            Frame::WindowUpdate { stream, increment } => {
                write!(f, "WINDOW_UPDATE on stream {stream}: increment {increment}")
            }
            Frame::Unknown { kind, stream } => {
                write!(f, "type {kind} on stream {stream}: ignored")
            }
            Frame::Data { .. } | Frame::Headers { .. } | Frame::Continuation { .. } => {
                carried(self.0, f)
            }
        }
    }
}

// What a frame says that carries a part of a request; nothing of any other.
fn carried<W: fmt::Write>(frame: Frame<'_>, f: &mut fmt::Formatter<W>) -> fmt::Result {
    match frame {
        Frame::Data {
            stream,
            octets,
            counted,
            end_stream,
        } => {
            let (n, end) = (octets.len(), end(end_stream));
            write!(
                f,
                "DATA on stream {stream}: body octets: {n}, counted: {counted}{end}"
            )
        }
        Frame::Headers {
            stream,
            fragment,
            end_headers,
            end_stream,
        } => {
            let (n, rest, end) = (fragment.len(), rest(end_headers), end(end_stream));
            write!(
                f,
                "HEADERS on stream {stream}: block octets: {n}, {rest}{end}"
            )
        }
        Frame::Continuation {
            stream,
            fragment,
            end_headers,
        } => {
            let (n, rest) = (fragment.len(), rest(end_headers));
            write!(
                f,
                "CONTINUATION on stream {stream}: block octets: {n}, {rest}"
            )
        }
        _ => Ok(()),
    }
}

// A fault as `C6 at 3`: scope, number of the error code, place.
#[derive(Clone, Copy)]
pub struct Mark(pub Fault);

impl fmt::Display for Mark {
    fn fmt<W: fmt::Write>(&self, f: &mut fmt::Formatter<W>) -> fmt::Result {
        let Fault { scope, code, place } = self.0;
        let scope = match scope {
            Scope::Connection => "C",
            Scope::Stream => "S",
        };
        write!(f, "{scope}{} at {place}", u32::from(code))
    }
}

// The frame that a header announces, in front of what is said of it.
#[derive(Clone, Copy)]
pub struct About(pub Option<Header>);

impl fmt::Display for About {
    fn fmt<W: fmt::Write>(&self, f: &mut fmt::Formatter<W>) -> fmt::Result {
        let Some(header) = self.0 else {
            return Ok(());
        };
        let kind = header.kind;
        let stream = header.stream;
        let length = header.length;
        write!(f, "{kind} on stream {stream}, payload octets: {length}; ")
    }
}

// What a path names: how many octets, the first and the last of them, and their Adler-32 checksum.
#[derive(Clone, Copy)]
pub struct Found(pub Survey);

impl fmt::Display for Found {
    fn fmt<W: fmt::Write>(&self, f: &mut fmt::Formatter<W>) -> fmt::Result {
        let Survey {
            count,
            first,
            last,
            checksum,
        } = self.0;
        match (first, last) {
            (Some(first), Some(last)) => {
                write!(
                    f,
                    "count {count} first {first:02x} last {last:02x} checksum {checksum:08x}  # named"
                )
            }
            _ => write!(
                f,
                "count {count} first - last - checksum {checksum:08x}  # named and empty"
            ),
        }
    }
}
