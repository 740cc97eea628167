// Where the octets of a dynamic table's entries lie, name and value one after the other.
use std::marker::Model;

// The mark counts the octets ever appended before the entry's, modulo 65,536: moving the octets changes no span.
#[derive(Clone, Copy)]
pub struct Span {
    pub(crate) mark: u16,
    pub(crate) name: u16,
    pub(crate) value: u16,
}

// The spans of at most 128 entries, seen as their list, the newest first.
// A ring of its own, in fixed memory: the library's VecDeque and the kit's circular_buffer take theirs from the heap.
#[derive(Drop)]
pub struct Spans {
    slots: [Span; 128],
    // The slot of the oldest, and how many there are.
    first: usize,
    count: usize,
}

impl Model for Spans {
    ghost use Rattle.std.specs.Prelude.{◌<◌, ◌≤◌, List};
    ghost use Rattle.tables.specs.declared.span.Span.{Span};

    ghost Value = { List Span };

    ghost use Rattle.tables.specs.Rings.{held};

    ghost view = { λ r. held r.slots r.first r.count };

    ghost invariant = { λ r. (r.first < 128) × (r.count ≤ 128) };
}

pub mod ring;
