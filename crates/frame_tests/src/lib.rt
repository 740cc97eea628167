// Frames on examples: what is written octet by octet, and which rule decides where two are broken.
#![tactic(auto)]

#[cfg(test)]
mod tests {
    use frames::code::{ErrorCode, UnknownCode};
    use frames::cut::{Refusal, Unread};
    use frames::frame::Frame;
    use frames::settings::{Setting, SettingName};
    use wire::outgoing::{Outgoing, Unwritten};
    use wire::read::read_frame;

    #[test]
    fn our_settings_allow_16_streams_and_no_old_priorities(rt: HostRuntime) {
        let mut buffer = [0xffu8; 24];
        assert_eq!(rt; Outgoing::Settings.write(&mut buffer), Ok(21));
        let expected =
            *b"\x00\x00\x0c\x04\x00\x00\x00\x00\x00\x00\x03\x00\x00\x00\x10\x00\x09\x00\x00\x00\x01\xff\xff\xff";
        assert!(rt; buffer == expected);
    }

    #[test]
    fn goaway_names_the_last_stream_and_the_code(rt: HostRuntime) {
        let mut buffer = [0u8; 17];
        let goaway = Outgoing::GoAway {
            last: 5,
            code: ErrorCode::CompressionError,
        };
        assert_eq!(rt; goaway.write(&mut buffer), Ok(17));
        let expected = *b"\x00\x00\x08\x07\x00\x00\x00\x00\x00\x00\x00\x00\x05\x00\x00\x00\x09";
        assert!(rt; buffer == expected);
    }

    #[test]
    fn a_header_of_data_announces_what_is_filled_in_behind_it(rt: HostRuntime) {
        let mut buffer = [0x11u8; 11];
        let data = Outgoing::DataHeader {
            stream: 259,
            length: 1024,
            end: true,
        };
        assert_eq!(rt; data.write(&mut buffer), Ok(9));
        assert!(rt; buffer == *b"\x00\x04\x00\x00\x01\x00\x00\x01\x03\x11\x11");
    }

    #[test]
    fn a_buffer_that_is_too_small_stays_as_it_was(rt: HostRuntime) {
        let mut buffer = [7u8; 12];
        let reset = Outgoing::RstStream {
            stream: 1,
            code: ErrorCode::Cancel,
        };
        assert_eq!(rt; reset.write(&mut buffer), Err(Unwritten::NoRoom));
        assert!(rt; buffer == [7u8; 12]);
    }

    // The code of the fault that the octets give, if they give one.
    fn fault_code(octets: &[u8], seen: u32) -> Option<ErrorCode> {
        match read_frame(octets, seen) {
            Err(Unread::Faulty(fault)) => Some(fault.code),
            _ => None,
        }
    }

    #[test]
    fn of_two_broken_rules_the_first_decides(rt: HostRuntime) {
        let idle_and_short = b"\x00\x00\x03\x03\x00\x00\x00\x00\x07\x00\x00\x00";
        assert_eq!(rt;
            fault_code(idle_and_short, 5),
            Some(ErrorCode::ProtocolError)
        );
        let long_on_idle = b"\x00\x00\x05\x08\x00\x00\x00\x00\x09\x00\x00\x00\x00\x01";
        assert_eq!(rt;
            fault_code(long_on_idle, 5),
            Some(ErrorCode::FrameSizeError)
        );
        let padded_away_and_no_priority =
            b"\x00\x00\x06\x01\x2c\x00\x00\x00\x01\x04\x00\x00\x00\x00\x00";
        assert_eq!(rt;
            fault_code(padded_away_and_no_priority, 0),
            Some(ErrorCode::FrameSizeError)
        );
        let too_long_for_any_type = b"\x00\x40\x01\x05\x00\x00\x00\x00\x00";
        assert_eq!(rt;
            fault_code(too_long_for_any_type, 0),
            Some(ErrorCode::FrameSizeError)
        );
    }

    #[test]
    fn a_frame_that_is_not_whole_is_refused(rt: HostRuntime) {
        let cut_short = read_frame(b"\x00\x00\x08\x06\x00\x00\x00\x00\x00\x01\x02", 0);
        assert!(rt; matches!(cut_short, Err(Unread::Refused(Refusal::Incomplete))));
        assert_eq!(rt; u8::from(Refusal::Incomplete), 22);
    }

    #[test]
    fn settings_are_read_pair_by_pair_in_order(rt: HostRuntime) {
        let octets =
            b"\x00\x00\x0c\x04\x00\x00\x00\x00\x00\x00\x03\x00\x00\x00\x64\x00\x04\x00\x00\xff\xff";
        let Ok(read) = read_frame(octets, 0) else {
            panic!(rt; "a fault");
        };
        assert_eq!(rt; read.length, 21);
        let Frame::Settings { list } = read.frame else {
            panic!(rt; "no SETTINGS");
        };
        let mut pairs = list.iter();
        let first = Setting {
            name: SettingName::MaxConcurrentStreams,
            value: 100,
        };
        let second = Setting {
            name: SettingName::InitialWindowSize,
            value: 65_535,
        };
        assert_eq!(rt; pairs.next(), Some(first));
        assert_eq!(rt; pairs.next(), Some(second));
        assert_eq!(rt; pairs.next(), None);
    }

    #[test]
    fn headers_carry_their_block(rt: HostRuntime) {
        let mut buffer = [0u8; 12];
        let headers = Outgoing::Headers {
            stream: 3,
            block: b"\x88\x84",
            end: true,
        };
        assert_eq!(rt; headers.write(&mut buffer), Ok(11));
        assert!(rt; buffer == *b"\x00\x00\x02\x01\x05\x00\x00\x00\x03\x88\x84\x00");
    }

    #[test]
    fn a_number_that_no_code_has_is_told(rt: HostRuntime) {
        assert_eq!(rt; ErrorCode::try_from(7), Ok(ErrorCode::RefusedStream));
        assert_eq!(rt; ErrorCode::try_from(14), Err(UnknownCode(14)));
        assert_eq!(rt; u32::from(ErrorCode::Http11Required), 13);
    }
}
