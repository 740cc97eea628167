// A cursor over a block.
use std::marker::Model;

// A block, and the place of its next octet to read.
#[derive(Drop)]
pub struct Cursor<'a> {
    block: &'a [u8],
    at: usize,
}

impl<'a> Model for Cursor<'a> {
    ghost use Rattle.std.specs.Prelude.{◌≤◌, length};
    ghost use Rattle.representations.specs.Cursors.{Reached};

    ghost Value = { Reached };

    ghost view = { λ c. record { block = c.block.now; at = c.at } };

    ghost invariant = { λ c. c.at ≤ length c.block.now };
}

pub mod readers;
