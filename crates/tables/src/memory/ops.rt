// What can be done with the entries in memory: look one up, add one, and drop the oldest.
ghost use Rattle.std.specs.Prelude.{◌≡◌, ◌+◌, ◌-◌, ◌*◌, ◌<◌, ◌≤◌, [], ◌∷◌, ◌++◌, length, take, drop, IfSome, IsSome, OnSome, slice_get, option_map};
ghost use Rattle.tables.specs.DynamicTable.{total, fitted};
ghost use Rattle.tables.specs.Layout.{cut};
ghost use Rattle.tables.specs.StaticTable.{Field};
ghost use Rattle.tables.specs.Memories.{fields_of, Stands};
ghost use Rattle.tables.specs.Names.{given_name};
ghost use Rattle.tables.specs.Views.{shown_field};

use super::Memory;
use crate::name::NewName;
use crate::span::{Span, Spans};

// Where an entry lies, and how long its name and value are.
#[derive(Clone, Copy)]
pub(crate) struct Place {
    pub(crate) at: usize,
    pub(crate) name: usize,
    pub(crate) value: usize,
}

impl Memory {
    pub(crate) fn new() -> Memory
        ensures after { fields_of result ≡ [] }
        ensures fits { result.end + 32 * length result.spans ≤ result.start }
    {
        Memory {
            octets: [0; 8192],
            spans: Spans::new(),
            base: 0,
            start: 0,
            end: 0,
        }
    }

    // What the entries cost: their octets, and 32 for each.
    pub(crate) fn size(&self) -> usize
        ensures value { result ≡ total (fields_of self.now) }
        ensures bound { result + self.now.start ≡ self.now.end + 32 * length self.now.spans }
    {
        self.end - self.start + 32 * self.spans.len()
    }

    // Where the entry at a place lies, 0 the newest.
    pub(crate) fn locate(&self, i: usize) -> Option<Place>
        ensures value { option_map (λ p. cut self.now.octets p.at p.name p.value) result ≡ slice_get (fields_of self.now) i }
        ensures within { IfSome result (λ p. p.at + (p.name + p.value) ≤ self.now.end) }
        ensures bound { OnSome result (i < 128) }
    {
        let span = self.spans.get(i)?;
        Some(Place {
            at: usize::from(span.mark.wrapping_sub(self.base)),
            name: usize::from(span.name),
            value: usize::from(span.value),
        })
    }

    // Name and value of the entry at a place.
    pub(crate) fn entry(&self, i: usize) -> Option<(&[u8], &[u8])>
        ensures value { shown_field result ≡ slice_get (fields_of self.now) i }
        ensures bound { OnSome result (i < 128) }
    {
        let place = self.locate(i)?;
        let (_, rest) = self.octets.split_at(place.at);
        let (name, rest) = rest.split_at(place.name);
        let (value, _) = rest.split_at(place.value);
        Some((name, value))
    }

    pub(crate) fn clear(&mut self)
        ensures after { fields_of self.new ≡ [] }
        ensures fits { self.new.end + 32 * length self.new.spans ≤ self.new.start }
    {
        self.spans.clear();
        self.start = 0;
        self.end = 0;
    }

    // How long the name of a new entry is, if there is one.
    pub(crate) fn name_length(&self, name: NewName) -> Option<usize>
        ensures { result ≡ option_map length (given_name (fields_of self.now) name.entry) }
    {
        match name {
            NewName::Text(text) => Some(text.len()),
            NewName::Of(i) => Some(self.locate(i)?.name),
        }
    }

    // Sees that so many octets can be put after the end: where they cannot, the entries move to the front.
    pub(crate) fn make_room(&mut self, needed: usize)
        requires { needed ≤ 4064 }
        ensures after { fields_of self.new ≡ fields_of self.old }
        ensures fits { self.new.end + needed ≤ 8192 }
    {
        if self.end + needed > 8192 {
            let start = self.start;
            let end = self.end;
            self.octets.copy_within(start..end, 0);
            self.base = self.base.wrapping_add(start as u16);
            self.end = end - start;
            self.start = 0;
        }
    }

    // Writes the name of a new entry after the end, and answers where it ends.
    fn put_name(&mut self, name: NewName) -> usize
        requires there { IsSome (given_name (fields_of self.old) name) }
        requires fits { IfSome (given_name (fields_of self.old) name) (λ n. self.old.end + length n ≤ 8192) }
        ensures stands { Stands self.old self.new }
        ensures made { IfSome (given_name (fields_of self.old) name.entry) (λ n. (result ≡ self.new.end + length n) × (take (length n) (drop self.new.end self.new.octets) ≡ n)) }
    {
        let end = self.end;
        match name {
            NewName::Text(text) => {
                self.octets[end..end + text.len()].copy_from_slice(text);
                end + text.len()
            }
            NewName::Of(i) => {
                let place = self.locate(i).unwrap();
                self.octets
                    .copy_within(place.at..place.at + place.name, end);
                end + place.name
            }
        }
    }

    // Writes a name and a value after the end, where they belong to no entry yet.
    pub(crate) fn append(&mut self, name: NewName, value: &[u8])
        requires there { IsSome (given_name (fields_of self.old) name) }
        requires fits { IfSome (given_name (fields_of self.old) name) (λ n. self.old.end + (length n + length value.now) ≤ 8192) }
        ensures stands { Stands self.old self.new }
        ensures made { IfSome (given_name (fields_of self.old) name.entry) (λ n. cut self.new.octets self.new.end (length n) (length value.now) ≡ (n, value.now)) }
    {
        let middle = self.put_name(name);
        self.octets[middle..middle + value.len()].copy_from_slice(value);
    }

    fn drop_oldest(&mut self)
        requires { 0 < length self.old.spans }
        ensures after { (f : Field) × (fields_of self.old ≡ fields_of self.new ++ f ∷ []) }
        ensures same { (self.new.octets ≡ self.old.octets) × (self.new.end ≡ self.old.end) }
        ensures len { length self.new.spans + 1 ≡ length self.old.spans }
    {
        let span = self.spans.drop_oldest();
        self.start += usize::from(span.name) + usize::from(span.value);
    }

    // Drops the oldest entries until the others fit the room.
    pub(crate) fn evict(&mut self, room: usize)
        ensures after { fields_of self.new ≡ fitted room (fields_of self.old) }
        ensures same { (self.new.octets ≡ self.old.octets) × (self.new.end ≡ self.old.end) }
        ensures fits { self.new.end + 32 * length self.new.spans ≤ room + self.new.start }
    {
        while self.size() > room {
            self.drop_oldest();
        }
    }

    // The octets after the end become the newest entry.
    pub(crate) fn push(&mut self, name: u16, value: u16)
        requires within { self.old.end + (name + value) ≤ 8192 }
        requires fits { self.old.end + (name + value) + 32 * (length self.old.spans + 1) ≤ 4096 + self.old.start }
        ensures after { fields_of self.new ≡ cut self.old.octets self.old.end name value ∷ fields_of self.old }
        ensures bound { self.new.end + 32 * length self.new.spans + self.old.start ≡ self.old.end + (name + value) + 32 * (length self.old.spans + 1) + self.new.start }
    {
        let mark = self.base.wrapping_add(self.end as u16);
        self.spans.push(Span { mark, name, value });
        self.end += usize::from(name) + usize::from(value);
    }
}
