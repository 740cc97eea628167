// Requests on examples: blocks as a station sends them, what they say, and what is malformed.
#![tactic(auto)]

#[cfg(test)]
mod tests {
    use request::block::read_block;
    use request::heard::{Head, Malformed};
    use request::record::{Record, Unrecorded, write_record};
    use request::route::Route;
    use tables::table::Table;

    // What a block says as the first of a request, if it can be decoded.
    fn first(block: &[u8]) -> Option<Result<Head, Malformed>> {
        let mut table = Table::new();
        read_block(&mut table, block).ok().map(|heard| heard.first)
    }

    // Ten times the urgency, and 1 more for incremental; 99 for what is no request: a test then names one number.
    fn priority(block: &[u8]) -> u8 {
        match first(block) {
            Some(Ok(head)) => {
                u8::from(head.priority.urgency) * 10 + u8::from(head.priority.incremental)
            }
            _ => 99,
        }
    }

    #[test]
    fn a_priority_is_3_and_not_incremental_unless_its_field_says_more(rt: HostRuntime) {
        assert_eq!(rt; priority(b"\x82\x87\x84"), 30);
        // RFC 9218, section 4.1
        assert_eq!(rt;
            priority(b"\x82\x87\x01\x0bexample.net\x04\x0a/style.css\x00\x08priority\x03u=0"),
            0
        );
        // RFC 9218, section 4.2
        assert_eq!(rt;
            priority(b"\x82\x87\x01\x0bexample.net\x04\x0a/image.jpg\x00\x08priority\x06u=5, i"),
            51
        );
    }

    #[test]
    fn odd_members_of_a_priority_are_as_if_not_there(rt: HostRuntime) {
        assert_eq!(rt; priority(b"\x82\x87\x84\x00\x08priority\x08u=1, u=8"), 10);
        assert_eq!(rt; priority(b"\x82\x87\x84\x00\x08priority\x03U=1"), 30);
        assert_eq!(rt; priority(b"\x82\x87\x84\x00\x08priority\x04u=07"), 30);
        assert_eq!(rt; priority(b"\x82\x87\x84\x00\x08priority\x05u = 1"), 30);
        assert_eq!(rt; priority(b"\x82\x87\x84\x00\x08priority\x05u=1;x"), 30);
        assert_eq!(rt; priority(b"\x82\x87\x84\x00\x08priority\x08i=?1,i=1"), 31);
        assert_eq!(rt;
            priority(b"\x82\x87\x84\x00\x08priority\x0d,, \x09i\x09 ,u=6 ,"),
            61
        );
        assert_eq!(rt;
            priority(b"\x82\x87\x84\x00\x08priority\x09\"a,u=4,b\""),
            40
        );
        assert_eq!(rt;
            priority(b"\x82\x87\x84\x00\x08priority\x06u=2, i\x00\x08priority\x04i=?0"),
            20
        );
        assert_eq!(rt;
            priority(b"\x82\x87\x84\x00\x08priority\x01u\x00\x08priority\x02=1"),
            30
        );
        assert_eq!(rt; priority(b"\x82\x87\x84\x00\x09priorityx\x03u=1"), 30);
    }

    // Why a block is malformed.
    fn breach(block: &[u8]) -> &'static str {
        match first(block) {
            Some(Ok(_)) => "none",
            Some(Err(Malformed::UpperCase)) => "upper case",
            Some(Err(Malformed::UnknownColonName)) => "unknown",
            Some(Err(Malformed::Repeated)) => "repeated",
            Some(Err(Malformed::AfterPlain)) => "after plain",
            Some(Err(Malformed::Missing)) => "missing",
            Some(Err(Malformed::EmptyPath)) => "empty path",
            None => "no block",
        }
    }

    #[test]
    fn the_first_breach_says_why_a_request_is_malformed(rt: HostRuntime) {
        // RFC 9113, section 8.8.1
        assert_eq!(rt;
            breach(
                b"\x82\x87\x04\x09/resource\x00\x04host\x0bexample.org\x00\x06accept\x0aimage/jpeg",
            ),
            "none"
        );
        assert_eq!(rt; breach(b"\x82\x87\x84\x00\x03a[`\x00\x00\x00\x00"), "none");
        assert_eq!(rt; breach(b"\x82\x87\x84\x00\x04hosT\x01x"), "upper case");
        assert_eq!(rt; breach(b"\x82\x87\x84\x88"), "unknown");
        assert_eq!(rt; breach(b"\x82\x87\x84\x00\x01:\x00"), "unknown");
        assert_eq!(rt; breach(b"\x82\x87\x84\x01\x01a\x01\x01a"), "repeated");
        assert_eq!(rt; breach(b"\x82\x87\x00\x04host\x01x\x84"), "after plain");
        assert_eq!(rt; breach(b"\x82\x87\x00\x00\x00\x84"), "after plain");
        assert_eq!(rt; breach(b"\x87\x84"), "missing");
        assert_eq!(rt; breach(b"\x82\x84\x01\x01a"), "missing");
        assert_eq!(rt; breach(b"\x82\x87"), "missing");
        assert_eq!(rt; breach(b"\x82\x87\x04\x00"), "empty path");
        assert_eq!(rt; breach(b"\x82\x00\x04host\x01x\x82"), "repeated");
        assert_eq!(rt;
            breach(b"\x82\x00\x04host\x01x\x00\x05:Path\x01/\x82"),
            "upper case"
        );
    }

    #[test]
    fn trailers_are_known_by_having_no_name_with_a_colon(rt: HostRuntime) {
        let mut table = Table::new();
        // RFC 9113, section 8.8.4
        let trailers = read_block(&mut table, b"\x00\x03foo\x03bar");
        assert!(rt; matches!(trailers, Ok(heard) if !heard.colons));
        let late = read_block(&mut table, b"\x00\x03foo\x03bar\x00\x04:foo\x00");
        assert!(rt; matches!(late, Ok(heard) if heard.colons));
    }

    // The status of an answer that is known, 200 where the site is asked, 1 for the book, 0 for what is no request: a
    // number, since most are statuses.
    fn way(block: &[u8]) -> u16 {
        match first(block) {
            Some(Ok(head)) => match Route::of(head.method, &head.path) {
                Route::Answer(status) => u16::from(status),
                Route::Open => 200,
                Route::Record => 1,
            },
            _ => 0,
        }
    }

    #[test]
    fn each_request_has_its_way(rt: HostRuntime) {
        assert_eq!(rt; way(b"\x82\x87\x84"), 200);
        assert_eq!(rt; way(b"\x02\x04HEAD\x87\x84"), 200);
        assert_eq!(rt; way(b"\x83\x87\x04\x05/book"), 1);
        assert_eq!(rt; way(b"\x83\x87\x04\x06/book/"), 404);
        assert_eq!(rt; way(b"\x83\x87\x04\x04/boo"), 404);
        assert_eq!(rt; way(b"\x02\x03get\x87\x84"), 405);
        assert_eq!(rt; way(b"\x02\x03PUT\x87\x04\x05/book"), 405);
        assert_eq!(rt;
            way(b"\x82\x87\x04@/ppppppppppppppppppppppppppppppppppppppppppppppppppppppppppppppp"),
            200
        );
        assert_eq!(rt;
            way(b"\x83\x87\x04A/pppppppppppppppppppppppppppppppppppppppppppppppppppppppppppppppp"),
            414
        );
    }

    #[test]
    fn a_record_is_written_with_zeros_behind_its_body(rt: HostRuntime) {
        let mut book = [Record::blank(); 2];
        assert_eq!(rt; write_record(&mut book, 1, 5, b"stop 17"), Ok(()));
        assert_eq!(rt; book[0].stream, 0);
        assert_eq!(rt; book[1].stream, 5);
        assert_eq!(rt; book[1].length, 7);
        assert_eq!(rt; book[1].body[6], b'7');
        assert_eq!(rt; book[1].body[7], 0);
        assert_eq!(rt;
            write_record(&mut book, 2, 7, b""),
            Err(Unrecorded::NoSpace)
        );
        assert_eq!(rt;
            write_record(&mut book, 0, 7, &[1; 257]),
            Err(Unrecorded::TooLong)
        );
        assert_eq!(rt; book[0].stream, 0);
    }
}
