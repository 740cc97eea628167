// Where the name of a new entry comes from.

// A text, or the entry at a place, 0 the newest.
#[derive(Clone, Copy)]
pub(crate) enum NewName<'a> {
    Text(&'a [u8]),
    Of(usize),
}
