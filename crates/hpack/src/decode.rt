// A field block decoded: each field is handed on as soon as it is read, and none is gathered.
ghost use Rattle.std.specs.Prelude.{◌≡◌, ℕ, ◌+◌, ◌<◌, true, List, [], length, IfErr, Some, OnSome};
ghost use Rattle.representations.specs.Cursors.{past, rest};
ghost use Rattle.hpack.specs.Decoding.{field_at, name_for, effect_of, indexed_effect, literal_effect, size_effect, decode_from, decode_with, decode_list, listed, refolded};
ghost use Rattle.primitives.specs.Reads.{value_of};
ghost use Rattle.representations.specs.Representations.{name_at, representation_of};
ghost use Rattle.hpack.specs.Turns.{ran, ran_size};
ghost use Rattle.tables.specs.DynamicTable.{IsHeld};
ghost use Rattle.tables.specs.Views.{shown_field};

use representations::cursor::Cursor;
use representations::representation::{Name, Representation};
use tables::static_table;
use tables::table::Table;

// The index of the dynamic table's newest entry: the static table comes before it.
const NEWEST: usize = 62;

// What takes the fields of a block, one after the other.
pub trait Fold {
    ghost step: { Self → List ℕ → List ℕ → Self };

    fn field(&mut self, name: &[u8], value: &[u8])
        ensures { self.new ≡ step self.old name.now value.now };
}

// What a representation turned out to be; there is none for one at fault.
#[derive(Clone, Copy)]
enum Turn {
    Field,
    Size,
}

// The field at an index: 1 to 61 in the static table, from 62 on in the dynamic one, the newest first.
fn find<'a>(table: &'a Table, index: usize) -> Option<(&'a [u8], &'a [u8])>
    ensures { shown_field result ≡ field_at table.now.entries index }
{
    match index.checked_sub(NEWEST) {
        Some(place) => table.entry(place),
        None => static_table::entry(index),
    }
}

// Table and fold go from function to function as they are: each contract of a struct that lent both would have to
// promise besides that it still lends the same two.

// A field of the tables.
fn take_indexed<F: Fold>(table: &mut Table, index: u32, fold: &mut F) -> Option<Turn>
    ensures { (result, table.new, fold.new) ≡ ran F.Fold.step fold.old table.old (indexed_effect table.old (field_at table.old.entries index)) }
{
    let (name, value) = find(table, index as usize)?;
    fold.field(name, value);
    Some(Turn::Field)
}

// A literal with the name of an entry, which the table may have to drop as it adds the field: so the table, which
// changes, cannot lend that name to `take_literal`, and adds the field by the entry's place.
fn take_named<F: Fold>(
    table: &mut Table,
    adds: bool,
    index: u32,
    value: &[u8],
    fold: &mut F,
) -> Option<Turn>
    ensures { (result, table.new, fold.new) ≡ ran F.Fold.step fold.old table.old (literal_effect table.old adds (name_for table.old.entries (name_at index)) value.now) }
{
    let index = index as usize;
    let Some(place) = index.checked_sub(NEWEST) else {
        let (name, _) = static_table::entry(index)?;
        return Some(take_literal(table, adds, name, value, fold));
    };
    let (name, _) = table.entry(place)?;
    fold.field(name, value);
    if adds {
        table.insert_like(place, value);
    }
    Some(Turn::Field)
}

// A literal with a name from outside the table.
fn take_literal<F: Fold>(
    table: &mut Table,
    adds: bool,
    name: &[u8],
    value: &[u8],
    fold: &mut F,
) -> Turn
    ensures { (Some result, table.new, fold.new) ≡ ran F.Fold.step fold.old table.old (literal_effect table.old adds (Some name.now) value.now) }
{
    fold.field(name, value);
    if adds {
        table.insert(name, value);
    }
    Turn::Field
}

// A new size of the table, lawful before all fields.
fn take_size(table: &mut Table, early: bool, size: u32) -> Option<Turn>
    ensures { (result, table.new) ≡ ran_size table.old (size_effect table.old early size) }
{
    if !early {
        return None;
    }
    table.resize(size as usize).ok()?;
    Some(Turn::Size)
}

// One representation: the cursor reads it, the tables resolve it, the fold takes its field, and the table changes.
fn take_representation<F: Fold>(
    table: &mut Table,
    cursor: &mut Cursor,
    early: bool,
    fold: &mut F,
) -> Option<Turn>
    ensures value { (result, table.new, fold.new) ≡ ran F.Fold.step fold.old table.old (effect_of table.old early (value_of (representation_of (rest cursor.old)))) }
    ensures after { cursor.new ≡ past cursor.old (representation_of (rest cursor.old)) }
    ensures moves { OnSome result (cursor.old.at < cursor.new.at) }
{
    match cursor.representation()? {
        Representation::Indexed(index) => take_indexed(table, index, fold),
        Representation::Literal { adds, name, value } => match name {
            Name::Index(index) => take_named(table, adds, index, value, fold),
            Name::Text(name) => Some(take_literal(table, adds, name, value, fold)),
        },
        Representation::Size(size) => take_size(table, early, size),
    }
}

// All that a cursor has left to read. A new size may come until there was a field.
fn decode_rest<F: Fold>(table: &mut Table, cursor: &mut Cursor, fold: &mut F) -> Result<(), usize>
    ensures value { (result, table.new, fold.new) ≡ decode_from F.Fold.step (length (rest cursor.old)) fold.old table.old true cursor.old.at (rest cursor.old) }
    ensures fused { (result, table.new, fold.new) ≡ refolded F.Fold.step fold.old (decode_from listed (length (rest cursor.old)) [] table.old true cursor.old.at (rest cursor.old)) }
    ensures bound { IfErr result (λ p. p < length cursor.old.block) }
{
    let mut early = true;
    while !cursor.is_done() {
        let place = cursor.position();
        match take_representation(table, cursor, early, fold).ok_or(place)? {
            Turn::Field => early = false,
            Turn::Size => {}
        }
    }
    Ok(())
}

// Decodes a whole block, or answers the place of its fault: the first octet of the representation at fault.
pub fn decode<F: Fold>(table: &mut Table, block: &[u8], fold: &mut F) -> Result<(), usize>
    ensures value { (result, table.new, fold.new) ≡ decode_with F.Fold.step fold.old table.old block.now }
    ensures fused { (result, table.new, fold.new) ≡ refolded F.Fold.step fold.old (decode_list table.old block.now) }
    ensures bound { IfErr result (λ p. p < length block.now) }
    ensures held { IsHeld table.new }
{
    let mut cursor = Cursor::new(block);
    let outcome = decode_rest(table, &mut cursor, fold);
    table.size(); // tells that the entries fit
    outcome
}
