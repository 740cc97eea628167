// What one frame says. The cases borrow octets, block fragments and settings from the input; nothing is copied.
use crate::settings::SettingsList;

#[derive(Clone, Copy)]
pub enum Frame<'a> {
    // `octets` is the payload without padding; `counted` is the whole payload's length, which counts against windows.
    Data {
        stream: u32,
        octets: &'a [u8],
        counted: usize,
        end_stream: bool,
    },
    // `fragment` is a part of a field block, without padding and priority octets.
    Headers {
        stream: u32,
        fragment: &'a [u8],
        end_headers: bool,
        end_stream: bool,
    },
    Priority {
        stream: u32,
    },
    // `code` is the number that came, here and in GOAWAY: it need not name an `ErrorCode`.
    RstStream {
        stream: u32,
        code: u32,
    },
    Settings {
        list: SettingsList<'a>,
    },
    SettingsAck,
    Ping {
        octets: [u8; 8],
    },
    PingAck {
        octets: [u8; 8],
    },
    GoAway {
        last: u32,
        code: u32,
        debug: &'a [u8],
    },
    // An increment of 0 on a stream is not told here: whether that stream still has a place is asked first.
    WindowUpdate {
        stream: u32,
        increment: u32,
    },
    Continuation {
        stream: u32,
        fragment: &'a [u8],
        end_headers: bool,
    },
    // `kind` is the number of a type that has no name.
    Unknown {
        kind: u8,
        stream: u32,
    },
}
