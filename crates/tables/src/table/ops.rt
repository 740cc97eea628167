// What can be done with a dynamic table: look an entry up, add one, and set the size.
ghost use Rattle.std.specs.Prelude.{◌≡◌, ◌<◌, ◌≤◌, slice_get, OnSome};
ghost use Rattle.tables.specs.DynamicTable.{total, fresh, grown, grown_like, grown_named, resizing, IsHeld};
ghost use Rattle.tables.specs.Layout.{room_after};
ghost use Rattle.tables.specs.Names.{given_name};
ghost use Rattle.tables.specs.Views.{shown_field};

use super::Table;
use crate::memory::Memory;
use crate::name::NewName;
use crate::refusal::TooLarge;

// The largest size of a table.
const LARGEST: usize = 4096;

impl Table {
    // An empty table of the largest size.
    pub fn new() -> Table
        ensures { result ≡ fresh }
    {
        Table {
            memory: Memory::new(),
            limit: LARGEST,
        }
    }

    // What the entries cost: their octets, and 32 for each.
    pub fn size(&self) -> usize
        ensures value { result ≡ total self.now.entries }
        ensures bound { (result ≤ self.now.limit) × (self.now.limit ≤ 4096) }
    {
        self.memory.size()
    }

    // Name and value of the entry at a place, 0 the newest.
    pub fn entry(&self, i: usize) -> Option<(&[u8], &[u8])>
        ensures value { shown_field result ≡ slice_get self.now.entries i }
        ensures bound { OnSome result (i < 128) }
        ensures held { IsHeld self.now }
    {
        self.size(); // tells that the entries fit
        self.memory.entry(i)
    }

    // A new size, which drops the oldest entries until all fits; above the largest it is refused.
    pub fn resize(&mut self, size: usize) -> Result<(), TooLarge>
        ensures value { (result, self.new) ≡ resizing self.old size }
        ensures held { IsHeld self.new }
    {
        if size > LARGEST {
            self.size(); // tells that the entries fit
            return Err(TooLarge);
        }
        self.memory.evict(size);
        self.limit = size;
        self.size(); // tells that the entries fit
        Ok(())
    }

    // Adds a field as the newest; the oldest entries make way. One that is larger than the table empties it.
    pub fn insert(&mut self, name: &[u8], value: &[u8])
        ensures value { self.new ≡ grown self.old (name.now, value.now) }
        ensures held { IsHeld self.new }
    {
        self.add(NewName::Text(name), value);
        self.size(); // tells that the entries fit
    }

    // Adds a field with the name of the entry at a place, which may itself have to make way; without it nothing is
    // added.
    pub fn insert_like(&mut self, i: usize, value: &[u8])
        ensures value { self.new ≡ grown_like self.old (slice_get self.old.entries i) value.now }
        ensures held { IsHeld self.new }
    {
        self.add(NewName::Of(i), value);
        self.size(); // tells that the entries fit
    }

    // Adds a field with either kind of name. It is written before the oldest make way, since one of them may have the
    // name.
    fn add(&mut self, name: NewName, value: &[u8])
        ensures { self.new ≡ grown_named self.old (given_name self.old.entries name.entry) value.now }
    {
        let Some(length) = self.memory.name_length(name) else {
            return;
        };
        let Some(room) = room_after(self.limit, length, value.len()) else {
            self.memory.clear();
            return;
        };
        self.memory.make_room(length + value.len());
        self.memory.append(name, value);
        self.memory.evict(room);
        self.memory.push(length as u16, value.len() as u16);
    }
}

// The room that an entry leaves, which has 32 octets of its own.
fn room_after(room: usize, name: usize, value: usize) -> Option<usize>
    ensures { result ≡ room_after room name value }
{
    let room = room.checked_sub(name)?;
    let room = room.checked_sub(value)?;
    room.checked_sub(32)
}
