// The error codes of HTTP/2, by their names.
ghost use Rattle.std.specs.Prelude.{◌≡◌};

use std::error::Error;
use std::fmt;

#[derive(Clone, Copy, PartialEq, Eq, Debug)]
pub enum ErrorCode {
    NoError,
    ProtocolError,
    InternalError,
    FlowControlError,
    SettingsTimeout,
    StreamClosed,
    FrameSizeError,
    RefusedStream,
    Cancel,
    CompressionError,
    ConnectError,
    EnhanceYourCalm,
    InadequateSecurity,
    Http11Required,
}

// The number that stands for the code in RST_STREAM and GOAWAY.
impl From<ErrorCode> for u32 {
    ghost use Rattle.frames.specs.Codes.{code_number};

    ghost from_gives = { λ code number. number ≡ code_number code };

    fn from(code: ErrorCode) -> u32 {
        match code {
            ErrorCode::NoError => 0,
            ErrorCode::ProtocolError => 1,
            ErrorCode::InternalError => 2,
            ErrorCode::FlowControlError => 3,
            ErrorCode::SettingsTimeout => 4,
            ErrorCode::StreamClosed => 5,
            ErrorCode::FrameSizeError => 6,
            ErrorCode::RefusedStream => 7,
            ErrorCode::Cancel => 8,
            ErrorCode::CompressionError => 9,
            ErrorCode::ConnectError => 10,
            ErrorCode::EnhanceYourCalm => 11,
            ErrorCode::InadequateSecurity => 12,
            ErrorCode::Http11Required => 13,
        }
    }
}

// A number that no code has.
#[derive(Clone, Copy, PartialEq, Eq, Debug)]
pub struct UnknownCode(pub u32);

// The code that a number stands for; numbers above 13 have no name.
impl TryFrom<u32> for ErrorCode {
    ghost use Rattle.frames.specs.Codes.{code_of};

    type Error = UnknownCode;

    ghost try_from_gives = { λ number code. code ≡ code_of number };

    fn try_from(number: u32) -> Result<ErrorCode, UnknownCode> {
        match number {
            0 => Ok(ErrorCode::NoError),
            1 => Ok(ErrorCode::ProtocolError),
            2 => Ok(ErrorCode::InternalError),
            3 => Ok(ErrorCode::FlowControlError),
            4 => Ok(ErrorCode::SettingsTimeout),
            5 => Ok(ErrorCode::StreamClosed),
            6 => Ok(ErrorCode::FrameSizeError),
            7 => Ok(ErrorCode::RefusedStream),
            8 => Ok(ErrorCode::Cancel),
            9 => Ok(ErrorCode::CompressionError),
            10 => Ok(ErrorCode::ConnectError),
            11 => Ok(ErrorCode::EnhanceYourCalm),
            12 => Ok(ErrorCode::InadequateSecurity),
            13 => Ok(ErrorCode::Http11Required),
            _ => Err(UnknownCode(number)),
        }
    }
}

impl fmt::Display for UnknownCode {
    fn fmt<W: fmt::Write>(&self, f: &mut fmt::Formatter<W>) -> fmt::Result {
        write!(f, "no error has the code {}", self.0)
    }
}

impl Error for UnknownCode {}

impl fmt::Display for ErrorCode {
    fn fmt<W: fmt::Write>(&self, f: &mut fmt::Formatter<W>) -> fmt::Result {
        f.write_str(match *self {
            ErrorCode::NoError => "NO_ERROR",
            ErrorCode::ProtocolError => "PROTOCOL_ERROR",
            ErrorCode::InternalError => "INTERNAL_ERROR",
            ErrorCode::FlowControlError => "FLOW_CONTROL_ERROR",
            ErrorCode::SettingsTimeout => "SETTINGS_TIMEOUT",
            ErrorCode::StreamClosed => "STREAM_CLOSED",
            ErrorCode::FrameSizeError => "FRAME_SIZE_ERROR",
            ErrorCode::RefusedStream => "REFUSED_STREAM",
            ErrorCode::Cancel => "CANCEL",
            ErrorCode::CompressionError => "COMPRESSION_ERROR",
            ErrorCode::ConnectError => "CONNECT_ERROR",
            ErrorCode::EnhanceYourCalm => "ENHANCE_YOUR_CALM",
            ErrorCode::InadequateSecurity => "INADEQUATE_SECURITY",
            ErrorCode::Http11Required => "HTTP_1_1_REQUIRED",
        })
    }
}
