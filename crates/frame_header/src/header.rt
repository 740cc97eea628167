// The types of frames, and the nine octets before every payload.
ghost use Rattle.std.specs.Prelude.{◌≡◌};
ghost use Rattle.frame_header.specs.Header.{split_header};
ghost use Rattle.frame_header.specs.View.{split_view};

use crate::flags::Flags;
use crate::octets::be31;
use std::fmt;

#[derive(Clone, Copy, Debug, PartialEq, Eq)]
pub enum Kind {
    Data,
    Headers,
    Priority,
    RstStream,
    Settings,
    PushPromise,
    Ping,
    GoAway,
    WindowUpdate,
    Continuation,
    Unknown(u8),
}

// The type that an octet stands for.
impl From<u8> for Kind {
    ghost use Rattle.frame_header.specs.Codes.{kind_of};

    ghost from_gives = { λ octet kind. kind ≡ kind_of octet };

    fn from(octet: u8) -> Kind {
        match octet {
            0 => Kind::Data,
            1 => Kind::Headers,
            2 => Kind::Priority,
            3 => Kind::RstStream,
            4 => Kind::Settings,
            5 => Kind::PushPromise,
            6 => Kind::Ping,
            7 => Kind::GoAway,
            8 => Kind::WindowUpdate,
            9 => Kind::Continuation,
            _ => Kind::Unknown(octet),
        }
    }
}

// The octet that stands for the type.
impl From<Kind> for u8 {
    ghost use Rattle.frame_header.specs.Codes.{kind_number};

    ghost from_gives = { λ kind octet. octet ≡ kind_number kind };

    fn from(kind: Kind) -> u8 {
        match kind {
            Kind::Data => 0,
            Kind::Headers => 1,
            Kind::Priority => 2,
            Kind::RstStream => 3,
            Kind::Settings => 4,
            Kind::PushPromise => 5,
            Kind::Ping => 6,
            Kind::GoAway => 7,
            Kind::WindowUpdate => 8,
            Kind::Continuation => 9,
            Kind::Unknown(octet) => octet,
        }
    }
}

impl fmt::Display for Kind {
    fn fmt<W: fmt::Write>(&self, f: &mut fmt::Formatter<W>) -> fmt::Result {
        let name = match *self {
            Kind::Data => "DATA",
            Kind::Headers => "HEADERS",
            Kind::Priority => "PRIORITY",
            Kind::RstStream => "RST_STREAM",
            Kind::Settings => "SETTINGS",
            Kind::PushPromise => "PUSH_PROMISE",
            Kind::Ping => "PING",
            Kind::GoAway => "GOAWAY",
            Kind::WindowUpdate => "WINDOW_UPDATE",
            Kind::Continuation => "CONTINUATION",
            Kind::Unknown(octet) => return write!(f, "type {octet}"),
        };
        f.write_str(name)
    }
}

pub type HeaderOctets = [u8; 9];

// `length` counts the payload's octets; `stream` has 31 bits.
#[derive(Clone, Copy, Debug, PartialEq, Eq)]
pub struct Header {
    pub length: u32,
    pub kind: Kind,
    pub flags: Flags,
    pub stream: u32,
}

impl Header {
    // The header in front and the octets after it; none where fewer than nine octets are given.
    pub fn split(octets: &[u8]) -> Option<(Header, &[u8])>
        ensures { split_view result ≡ split_header octets.now }
    {
        let (&[l0, l1, l2, kind, bits, s0, s1, s2, s3], rest) = octets.split_first_chunk::<9>()?;
        let header = Header {
            length: u32::from_be_bytes([0, l0, l1, l2]),
            kind: Kind::from(kind),
            flags: Flags { bits },
            stream: be31([s0, s1, s2, s3]),
        };
        Some((header, rest))
    }
}

// The header as it is written; the ignored bit is 0.
impl From<Header> for HeaderOctets {
    ghost use Rattle.frame_header.specs.Header.{header_octets};

    ghost from_gives = { λ header octets. octets ≡ header_octets header };

    fn from(header: Header) -> HeaderOctets {
        let [_, l0, l1, l2] = header.length.to_be_bytes();
        let [s0, s1, s2, s3] = (header.stream % 0x8000_0000).to_be_bytes();
        [
            l0,
            l1,
            l2,
            u8::from(header.kind),
            header.flags.bits,
            s0,
            s1,
            s2,
            s3,
        ]
    }
}
