// The dynamic table, in memory of a fixed size that no block can exhaust.
use crate::memory::Memory;
use std::marker::Model;

// Its entries, and the size that they are held to.
#[derive(Drop)]
pub struct Table {
    memory: Memory,
    limit: usize,
}

impl Model for Table {
    ghost use Rattle.tables.specs.DynamicTable.{Dynamic};

    ghost Value = { Dynamic };

    ghost use Rattle.std.specs.Prelude.{◌+◌, ◌*◌, ◌≤◌, length};
    ghost use Rattle.tables.specs.Memories.{fields_of};

    ghost view = { λ t. record { limit = t.limit; entries = fields_of t.memory } };

    ghost invariant = { λ t. (t.limit ≤ 4096) × (t.memory.end + 32 * length t.memory.spans ≤ t.limit + t.memory.start) };
}

pub mod entries;
pub mod ops;
