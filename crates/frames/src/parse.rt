// Reads one frame: every check that needs nothing but the frame and the highest stream seen, in the order of the rules.
ghost use Rattle.std.specs.Prelude.{◌≡◌};
ghost use Rattle.frames.specs.Parse.{idle, is_padded, unpadded, read_data, read_headers, read_rst_stream, read_settings, read_ping, read_goaway, read_window_update, read_by_kind, parsed};
ghost use Rattle.frames.specs.View.{said, ok_view};

use crate::code::ErrorCode;
use crate::cut::RawFrame;
use crate::fault::Fault;
use crate::flags::Flags;
use crate::frame::Frame;
use crate::header::Kind;
use crate::octets::be31;
use crate::settings::SettingsList;

// A stream that no HEADERS has opened: an even one, or one above the highest seen.
pub fn is_idle(stream: u32, seen: u32) -> bool
    ensures { result ≡ idle stream seen }
{
    (stream % 2 == 0) | (stream > seen)
}

impl<'a> RawFrame<'a> {
    // The payload without its pad count and padding.
    fn unpadded(self) -> Result<&'a [u8], ErrorCode>
        ensures { ok_view (λ x. x.now) result ≡ unpadded (is_padded self.entry.header) self.entry.payload.now }
    {
        if !self.header.flags.has(Flags::PADDED) {
            return Ok(self.payload);
        }
        let (count, rest) = self.payload.split_first().ok_or(ErrorCode::FrameSizeError)?;
        let count = usize::from(*count);
        if count > rest.len() {
            return Err(ErrorCode::ProtocolError);
        }
        Ok(&rest[..rest.len() - count])
    }

    // DATA: on no idle stream, and without its padding.
    fn data(self, seen: u32) -> Result<Frame<'a>, ErrorCode>
        ensures { ok_view said result ≡ read_data self.entry.header self.entry.payload.now seen }
    {
        if is_idle(self.header.stream, seen) {
            return Err(ErrorCode::ProtocolError);
        }
        Ok(Frame::Data {
            stream: self.header.stream,
            octets: self.unpadded()?,
            counted: self.payload.len(),
            end_stream: self.header.flags.has(Flags::END_STREAM),
        })
    }

    // HEADERS: on no even stream, and without its padding and the five octets of the old priority scheme.
    fn headers(self) -> Result<Frame<'a>, ErrorCode>
        ensures { ok_view said result ≡ read_headers self.entry.header self.entry.payload.now }
    {
        let flags = self.header.flags;
        if self.header.stream % 2 == 0 {
            return Err(ErrorCode::ProtocolError);
        }
        let mut fragment = self.unpadded()?;
        if flags.has(Flags::PRIORITY) {
            fragment = fragment.get(5..).ok_or(ErrorCode::FrameSizeError)?;
        }
        Ok(Frame::Headers {
            stream: self.header.stream,
            fragment,
            end_headers: flags.has(Flags::END_HEADERS),
            end_stream: flags.has(Flags::END_STREAM),
        })
    }

    // RST_STREAM: on no idle stream, and four octets.
    fn rst_stream(self, seen: u32) -> Result<Frame<'a>, ErrorCode>
        ensures { ok_view said result ≡ read_rst_stream self.entry.header self.entry.payload.now seen }
    {
        if is_idle(self.header.stream, seen) {
            return Err(ErrorCode::ProtocolError);
        }
        let code = self.payload.as_array().ok_or(ErrorCode::FrameSizeError)?;
        Ok(Frame::RstStream {
            stream: self.header.stream,
            code: u32::from_be_bytes(*code),
        })
    }

    // SETTINGS: on stream 0, and either an empty ACK or whole pairs.
    fn settings(self) -> Result<Frame<'a>, ErrorCode>
        ensures { ok_view said result ≡ read_settings self.entry.header self.entry.payload.now }
    {
        if self.header.stream != 0 {
            return Err(ErrorCode::ProtocolError);
        }
        match self.header.flags.has(Flags::ACK) {
            true if self.payload.is_empty() => Ok(Frame::SettingsAck),
            false if self.payload.len() % 6 == 0 => Ok(Frame::Settings {
                list: SettingsList {
                    octets: self.payload,
                },
            }),
            _ => Err(ErrorCode::FrameSizeError),
        }
    }

    // PING: on stream 0, and eight octets.
    fn ping(self) -> Result<Frame<'a>, ErrorCode>
        ensures { ok_view said result ≡ read_ping self.entry.header self.entry.payload.now }
    {
        if self.header.stream != 0 {
            return Err(ErrorCode::ProtocolError);
        }
        let octets = *self.payload.as_array().ok_or(ErrorCode::FrameSizeError)?;
        if self.header.flags.has(Flags::ACK) {
            Ok(Frame::PingAck { octets })
        } else {
            Ok(Frame::Ping { octets })
        }
    }

    // GOAWAY: on stream 0, and at least eight octets.
    fn goaway(self) -> Result<Frame<'a>, ErrorCode>
        ensures { ok_view said result ≡ read_goaway self.entry.header self.entry.payload.now }
    {
        if self.header.stream != 0 {
            return Err(ErrorCode::ProtocolError);
        }
        let ([a, b, c, d, e, f, g, h], debug) = self
            .payload
            .split_first_chunk::<8>()
            .ok_or(ErrorCode::FrameSizeError)?;
        Ok(Frame::GoAway {
            last: be31([*a, *b, *c, *d]),
            code: u32::from_be_bytes([*e, *f, *g, *h]),
            debug,
        })
    }

    // WINDOW_UPDATE: four octets; on no idle stream but 0, and there no increment of 0.
    fn window_update(self, seen: u32) -> Result<Frame<'a>, ErrorCode>
        ensures { ok_view said result ≡ read_window_update self.entry.header self.entry.payload.now seen }
    {
        let stream = self.header.stream;
        let octets = self.payload.as_array().ok_or(ErrorCode::FrameSizeError)?;
        let increment = be31(*octets);
        let broken = match stream {
            0 => increment == 0,
            _ => is_idle(stream, seen),
        };
        if broken {
            return Err(ErrorCode::ProtocolError);
        }
        Ok(Frame::WindowUpdate { stream, increment })
    }

    // What each type says, or the code of the first of its rules that is broken.
    fn by_kind(self, seen: u32) -> Result<Frame<'a>, ErrorCode>
        ensures { ok_view said result ≡ read_by_kind self.entry.header.kind self.entry.header self.entry.payload.now seen }
    {
        let stream = self.header.stream;
        match self.header.kind {
            Kind::Data => self.data(seen),
            Kind::Headers => self.headers(),
            Kind::Priority => Ok(Frame::Priority { stream }),
            Kind::RstStream => self.rst_stream(seen),
            Kind::Settings => self.settings(),
            Kind::PushPromise => Err(ErrorCode::ProtocolError),
            Kind::Ping => self.ping(),
            Kind::GoAway => self.goaway(),
            Kind::WindowUpdate => self.window_update(seen),
            Kind::Continuation => {
                Ok(Frame::Continuation {
                    stream,
                    fragment: self.payload,
                    end_headers: self.header.flags.has(Flags::END_HEADERS),
                })
            }
            Kind::Unknown(kind) => Ok(Frame::Unknown { kind, stream }),
        }
    }

    // What the frame says, or the connection's fault. `seen` is the highest stream of any HEADERS so far.
    pub fn parse(self, seen: u32) -> Result<Frame<'a>, Fault>
        ensures { ok_view said result ≡ parsed self.entry.header self.entry.payload.now seen }
    {
        self.by_kind(seen)
            .map_err(|code| Fault::connection(code, self.header.stream))
    }
}
