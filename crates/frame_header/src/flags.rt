// The flags of a frame, by their names; a bit means something only on the frame types named with it.
ghost use Rattle.std.specs.Prelude.{◌≡◌, cond};
ghost use Rattle.frame_header.specs.Codes.{flag, both_flags};

use std::ops::BitOr;

#[derive(Clone, Copy, Debug, PartialEq, Eq)]
pub struct Flags {
    pub bits: u8,
}

impl Flags {
    pub const NONE: Flags = Flags { bits: 0x0 };
    // DATA and HEADERS: nothing more of the sender comes on this stream.
    pub const END_STREAM: Flags = Flags { bits: 0x1 };
    // SETTINGS and PING: the answer to one of ours.
    pub const ACK: Flags = Flags { bits: 0x1 };
    // HEADERS and CONTINUATION: the field block is whole.
    pub const END_HEADERS: Flags = Flags { bits: 0x4 };
    // DATA and HEADERS: the first octet counts the padding at the end.
    pub const PADDED: Flags = Flags { bits: 0x8 };
    // HEADERS: five octets of an old priority scheme stand before the block.
    pub const PRIORITY: Flags = Flags { bits: 0x20 };

    // Whether a flag is set; of several, whether any is.
    pub fn has(self, asked: Flags) -> bool
        ensures { result ≡ flag self.bits asked.bits }
    {
        self.bits & asked.bits != 0
    }

    // These flags if they are wanted, else none.
    pub fn when(self, wanted: bool) -> Flags
        ensures { result ≡ cond wanted self Flags.NONE }
    {
        if wanted { self } else { Flags::NONE }
    }
}

// The flags of both.
impl BitOr for Flags {
    type Output = Flags;

    ghost bitor_gives = { λ a b r. r ≡ both_flags a b };

    fn bitor(self, other: Flags) -> Flags {
        Flags {
            bits: self.bits | other.bits,
        }
    }
}
