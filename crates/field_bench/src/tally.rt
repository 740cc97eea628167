// What the benchmark makes of the fields: their number, and the octets of their names and values.
ghost use Rattle.std.specs.Prelude.{◌≡◌};
ghost use Rattle.field_bench.specs.Tallies.{tallied, repeated};

use hpack::decode::{Fold, decode};
use std::fmt;
use tables::table::Table;

#[derive(Clone, Copy, Default)]
pub struct Tally {
    pub fields: usize,
    pub octets: usize,
}

impl Fold for Tally {
    ghost step = { tallied };

    fn field(&mut self, name: &[u8], value: &[u8])
        ensures { self.new ≡ tallied self.old name.now value.now }
    {
        self.fields = self.fields.wrapping_add(1);
        self.octets = self
            .octets
            .wrapping_add(name.len())
            .wrapping_add(value.len());
    }
}

impl fmt::Display for Tally {
    fn fmt<W: fmt::Write>(&self, f: &mut fmt::Formatter<W>) -> fmt::Result {
        let fields = self.fields;
        let octets = self.octets;
        write!(f, "{fields} fields, {octets} octets")
    }
}

// Decodes one block again and again with one table. A fault would show as fields that are not counted.
pub fn repeat(table: &mut Table, block: &[u8], turns: usize, tally: &mut Tally)
    ensures { (table.new, tally.new) ≡ repeated turns block.now (table.old, tally.old) }
{
    for _ in 0..turns {
        let _ = decode(table, block, tally);
    }
}
