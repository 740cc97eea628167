// What a cursor reads, each from its place on: integers, strings and representations.
ghost use Rattle.std.specs.Prelude.{◌≡◌, ℕ, ◌<◌, ◌≤◌, length, Option, OnSome, IfSome, nat_le};
ghost use Rattle.std.specs.Fn.{FnOnceReturnsAt};
ghost use Rattle.representations.specs.Cursors.{past, rest};
ghost use Rattle.primitives.specs.Integers.{integer_of};
ghost use Rattle.primitives.specs.Prefixes.{bits_of};
ghost use Rattle.primitives.specs.Reads.{value_of};
ghost use Rattle.representations.specs.Representations.{name_of, literal_of, representation_of};
ghost use Rattle.primitives.specs.Strings.{string_of};
ghost use Rattle.representations.specs.Views.{shown_text, shown_forms, read_name, read_form};

use super::Cursor;
use crate::representation::{Name, Representation};
use primitives::integer::{Prefix, read_integer};
use primitives::string::read_string;

impl<'a> Cursor<'a> {
    pub fn new(block: &'a [u8]) -> Cursor<'a>
        ensures { result ≡ record { block = block.now; at = 0 } }
    {
        Cursor { block, at: 0 }
    }

    // The place of the next octet to read.
    pub fn position(&self) -> usize
        ensures value { result ≡ self.now.at }
        ensures bound { result ≤ length self.now.block }
    {
        self.at // counted from the block's first octet
    }

    pub fn is_done(&self) -> bool
        ensures value { result ≡ nat_le (length self.now.block) self.now.at }
        ensures bound { self.now.at ≤ length self.now.block }
    {
        self.at >= self.block.len()
    }

    // What a reader reads at the place, from the octets there, and how many it takes; where it reads nothing, the
    // cursor stays.
    fn take<T, F: FnOnce(&'a [u8]) -> Option<(T, usize)>>(&mut self, reader: F) -> Option<T>
        requires callable { F.IsAlwaysCallable reader }
        requires bound { (r : Option (T × ℕ)) → FnOnceReturnsAt F.FnOnce reader (rest self.old) r → IfSome r (λ p. p.1 ≤ length (rest self.old)) }
        ensures read { (r : Option (T × ℕ)) × FnOnceReturnsAt F.FnOnce reader (rest self.old) r × (result ≡ value_of r) × (self.new ≡ past self.old r) }
        ensures bound { self.new.at ≤ length self.new.block }
    {
        let (_, left) = self.block.split_at(self.at);
        let (value, used) = reader(left)?;
        self.at += used;
        Some(value)
    }

    // Where nothing can be read, the cursor stays.
    pub fn integer(&mut self, prefix: Prefix) -> Option<u32>
        ensures value { result ≡ value_of (integer_of (bits_of prefix) (rest self.old)) }
        ensures after { self.new ≡ past self.old (integer_of (bits_of prefix) (rest self.old)) }
        ensures bound { self.new.at ≤ length self.new.block }
    {
        self.take(|octets| read_integer(prefix, octets))
    }

    pub fn string(&mut self) -> Option<&'a [u8]>
        ensures value { shown_text result ≡ value_of (string_of (rest self.old)) }
        ensures after { self.new ≡ past self.old (string_of (rest self.old)) }
        ensures bound { self.new.at ≤ length self.new.block }
    {
        self.take(read_string)
    }

    // One that is read takes at least one octet; where none can be read, the cursor stays.
    pub fn representation(&mut self) -> Option<Representation<'a>>
        ensures value { shown_forms result ≡ value_of (representation_of (rest self.old)) }
        ensures after { self.new ≡ past self.old (representation_of (rest self.old)) }
        ensures moves { OnSome result (self.old.at < self.new.at) }
        ensures bound { self.new.at ≤ length self.new.block }
    {
        self.take(read_representation)
    }
}

// The name of a literal, whose index has a prefix of its own, and how many octets it takes.
fn read_name(prefix: Prefix, octets: &[u8]) -> Option<(Name<'_>, usize)>
    ensures value { read_name result ≡ name_of (bits_of prefix) octets.now }
    ensures bound { IfSome result (λ p. p.1 ≤ length octets.now) }
    ensures moves { IfSome result (λ p. 1 ≤ p.1) }
{
    let (index, used) = read_integer(prefix, octets)?;
    if index != 0 {
        return Some((Name::Index(index), used));
    }
    let (_, left) = octets.split_at(used);
    let (name, more) = read_string(left)?;
    Some((Name::Text(name), used + more))
}

// A literal field, name and value.
fn read_literal(adds: bool, prefix: Prefix, octets: &[u8]) -> Option<(Representation<'_>, usize)>
    ensures value { read_form result ≡ literal_of adds (bits_of prefix) octets.now }
    ensures bound { IfSome result (λ p. p.1 ≤ length octets.now) }
    ensures moves { IfSome result (λ p. 1 ≤ p.1) }
{
    let (name, used) = read_name(prefix, octets)?;
    let (_, left) = octets.split_at(used);
    let (value, more) = read_string(left)?;
    Some((Representation::Literal { adds, name, value }, used + more))
}

// The representation at the front of the octets, told by its first bits, and how many octets it takes.
fn read_representation(octets: &[u8]) -> Option<(Representation<'_>, usize)>
    ensures value { read_form result ≡ representation_of octets.now }
    ensures bound { IfSome result (λ p. p.1 ≤ length octets.now) }
    ensures moves { IfSome result (λ p. 1 ≤ p.1) }
{
    match octets {
        [] => None,
        [128..=255, ..] => {
            let (index, used) = read_integer(Prefix::Seven, octets)?;
            Some((Representation::Indexed(index), used))
        }
        [64..=127, ..] => read_literal(true, Prefix::Six, octets),
        [32..=63, ..] => {
            let (size, used) = read_integer(Prefix::Five, octets)?;
            Some((Representation::Size(size), used))
        }
        [0..=31, ..] => read_literal(false, Prefix::Four, octets),
    }
}
