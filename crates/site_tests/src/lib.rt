// Sites on examples: what paths name, what places hold, and which shelves are refused.
#![tactic(auto)]

#[cfg(test)]
mod tests {
    use shelf::shelf::Shelf;
    use shelf::sound::Sound;
    use site::line::LineTest;
    use site::site::Site;
    use slices::slice::Slice;
    use slices::survey::fetch;
    use slices::worked::worked_values;
    use std::test::Fail;

    // Two sheets with one path, then a third that is empty.
    const SHEETS: &[u8] =
        b"\x02/a\x00\x00\x00\x03one\x02/a\x00\x00\x00\x03two\x04/a;b\x00\x00\x00\x00";

    // What a row is refused with as a shelf, unless it is one.
    fn refused(row: &[u8]) -> Option<u8> {
        Shelf::new(row).err().map(u8::from)
    }

    #[test]
    fn the_line_test_names_lengths_up_to_a_million_and_nothing_else(rt: HostRuntime) {
        let mut site = LineTest::new();
        assert_eq!(rt; site.open(0, b"/line/0"), Some(0));
        assert_eq!(rt; site.open(0, b"/line/1000000"), Some(1_000_000));
        assert_eq!(rt; site.open(0, b"/line/1000001"), None);
        assert_eq!(rt; site.open(0, b"/line/05"), None);
        assert_eq!(rt; site.open(0, b"/line/"), None);
        assert_eq!(rt; site.open(0, b"/lane/5"), None);
        assert_eq!(rt; site.open(16, b"/line/5"), None);
    }

    #[test]
    fn the_line_counts_to_250_and_starts_again(rt: HostRuntime) {
        let mut site = LineTest::new();
        assert_eq!(rt; site.open(3, b"/line/600"), Some(600));
        let mut buffer = [7u8; 4];
        assert_eq!(rt; site.fill(3, 250, &mut buffer), 4);
        assert!(rt; buffer == [250, 0, 1, 2]);
        assert_eq!(rt; site.fill(3, 598, &mut buffer), 2);
        assert!(rt; buffer == [96, 97, 1, 2]);
        assert_eq!(rt; site.fill(2, 0, &mut buffer), 0);
    }

    #[test]
    fn malformed_shelves_are_refused_with_50(rt: HostRuntime) {
        assert_eq!(rt; refused(b""), None);
        assert_eq!(rt; refused(SHEETS), None);
        assert_eq!(rt; refused(b"\x00\x00\x00\x00\x00"), Some(50), "path length 0");
        assert_eq!(rt; refused(&[65u8; 128]), Some(50), "path length 65");
        assert_eq!(rt; refused(b"\x02/"), Some(50), "cut path");
        assert_eq!(rt; refused(b"\x02/a\x00\x00\x00"), Some(50), "cut size");
        assert_eq!(rt; refused(b"\x02/a\x80\x00\x00\x00"), Some(50), "top bit set");
        assert_eq!(rt;
            refused(b"\x02/a\x00\x00\x00\x03on"),
            Some(50),
            "content past the end"
        );
        assert_eq!(rt;
            refused(b"\x02/a\x00\x00\x00\x03one!"),
            Some(50),
            "one octet too many"
        );
    }

    #[test]
    fn the_first_of_equal_paths_wins(rt: HostRuntime) -> Result<(), Fail> {
        let mut shelf = Shelf::new(SHEETS).map_err(|_| Fail::new("refused"))?;
        assert_eq!(rt; shelf.open(0, b"/a"), Some(3));
        let mut buffer = [0u8; 4];
        assert_eq!(rt; shelf.fill(0, 0, &mut buffer), 3);
        assert!(rt; buffer == *b"one\x00");
        assert_eq!(rt; shelf.open(0, b"/b"), None);
        assert_eq!(rt; shelf.fill(0, 0, &mut buffer), 0);
        Ok(())
    }

    #[test]
    fn octets_found_well_formed_make_a_shelf_that_nothing_refuses(
        rt: HostRuntime,
    ) -> Result<(), Fail> {
        let sheets = Sound::new(SHEETS).map_err(|_| Fail::new("refused"))?;
        let mut shelf = Shelf::over(sheets);
        let mut buffer = [0u8; 4];
        assert_eq!(rt; shelf.fill(0, 0, &mut buffer), 0, "holds nothing at first");
        assert_eq!(rt; shelf.open(0, b"/a"), Some(3));
        assert_eq!(rt; shelf.fill(0, 0, &mut buffer), 3);
        assert!(rt; buffer == *b"one\x00");
        let cut = Sound::new(&SHEETS[..5]).err().map(u8::from);
        assert_eq!(rt; cut, Some(50), "cut size");
        Ok(())
    }

    #[test]
    fn a_slice_of_a_slice_takes_off_one_range_for_each_layer(rt: HostRuntime) {
        let mut once = Slice::new(LineTest::new());
        assert_eq!(rt; once.open(0, b"/line/10;2-7;1-2"), None);
        let mut twice = Slice::new(once);
        assert_eq!(rt; twice.open(0, b"/line/10;2-7;1-2"), Some(2));
        let mut buffer = [0u8; 3];
        assert_eq!(rt; twice.fill(0, 0, &mut buffer), 2);
        assert!(rt; buffer == [3, 4, 0]);
        assert_eq!(rt; twice.open(0, b"/line/10;2-7;01-2"), None);
        assert_eq!(rt; twice.open(0, b"/line/10;2-7;2-1"), None);
        assert_eq!(rt; twice.open(0, b"/line/10;2-7;6-9"), None);
        assert_eq!(rt; twice.fill(0, 0, &mut buffer), 0);
    }

    #[test]
    fn a_path_with_a_semicolon_is_reached_on_a_shelf_only_by_a_range(
        rt: HostRuntime,
    ) -> Result<(), Fail> {
        let shelf = Shelf::new(SHEETS).map_err(|_| Fail::new("refused"))?;
        let mut site = Slice::new(Slice::new(shelf));
        assert_eq!(rt; site.open(0, b"/a;b"), None);
        assert_eq!(rt; site.open(0, b"/a;1-9;1-1"), Some(1));
        let mut buffer = [0u8; 1];
        assert_eq!(rt; site.fill(0, 0, &mut buffer), 1);
        assert!(rt; buffer == *b"e");
        Ok(())
    }

    #[test]
    fn the_worked_values_come_out(rt: HostRuntime) {
        let (named, unnamed) = worked_values();
        assert_eq!(rt; named, Some(1));
        assert_eq!(rt; unnamed, None);
    }

    #[test]
    fn a_fetch_tells_count_ends_and_checksum(rt: HostRuntime) -> Result<(), Fail> {
        let mut site = Slice::new(LineTest::new());
        let told = fetch(&mut site, 0, b"/line/5000").ok_or_else(|| Fail::new("unnamed"))?;
        assert_eq!(rt; told.count, 5000);
        assert_eq!(rt; told.first, Some(0));
        assert_eq!(rt; told.last, Some(230));
        assert_eq!(rt; told.checksum, 1157398762);
        Ok(())
    }
}
