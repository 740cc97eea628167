// Where the entries of a dynamic table lie.
ghost use Rattle.std.specs.Prelude.{◌≡◌, ◌+◌, ◌*◌, ◌≤◌, length};
ghost use Rattle.tables.specs.Layout.{space, Marked};

use crate::span::Spans;

//  octets   [ .. | oldest | .. | newest | .. ]      twice the largest size: an entry can be
//                 ^ start                ^ end      appended before any is dropped
//
// A lookup takes the same time at each index, an insertion the time of its own octets. All lies in fixed memory, since
// the engine allocates nothing.
#[derive(Drop)]
pub struct Memory {
    pub(crate) octets: [u8; 8192],
    pub(crate) spans: Spans,
    // The mark of an entry that would begin at the first octet.
    pub(crate) base: u16,
    pub(crate) start: usize,
    pub(crate) end: usize,
    ghost within: { end ≤ 8192 },
    ghost small: { end + 32 * length spans ≤ 4096 + start },
    ghost filled: { start + space spans ≡ end },
    ghost marked: { Marked base end spans },
}

pub mod ops;
