// The entries of a dynamic table, one after the other.
ghost use Rattle.std.specs.Prelude.{◌≡◌, ◌≤◌, length};
ghost use Rattle.std.specs.Iterator.{YieldsFirstBy, item_count};
ghost use Rattle.tables.specs.Views.{shown_pair};

use super::Table;
use crate::memory::Memory;
use std::marker::Model;

// What is left of a table's entries, names and values, the newest first; seen as their list.
#[derive(Drop)]
pub struct Entries<'a> {
    memory: &'a Memory,
    place: usize,
}

impl<'a> Model for Entries<'a> {
    ghost use Rattle.std.specs.Prelude.{List, drop};
    ghost use Rattle.tables.specs.StaticTable.{Field};

    ghost Value = { List Field };

    ghost use Rattle.tables.specs.Memories.{fields_of};

    ghost view = { λ e. drop e.place (fields_of e.memory.now) };
}

impl Table {
    // All entries, the newest first.
    pub fn entries(&self) -> Entries<'_>
        ensures value { result ≡ self.now.entries }
        ensures bound { length result ≤ 128 }
    {
        Entries {
            memory: &self.memory,
            place: 0,
        }
    }
}

impl<'a> Iterator for Entries<'a> {
    type Item = (&'a [u8], &'a [u8]);

    ghost next_gives = { YieldsFirstBy shown_pair (λ rest. rest) };

    ghost remaining = { item_count (λ rest. rest) };

    fn next(&mut self) -> Option<(&'a [u8], &'a [u8])> {
        let entry = self.memory.entry(self.place)?;
        self.place += 1;
        Some(entry)
    }
}
