// Field blocks in words: fields as they are handed on, and the table after them.
ghost use Rattle.std.specs.Prelude.{◌≡◌};

use crate::output::Output;
use hpack::decode::Fold;
use std::cell::Cell;
use std::fmt;
use tables::table::Table;

// Octets as text; what is no printable ASCII character, or a backslash, is `\xNN`. (The RFC's examples print each octet
// as its character instead.)
#[derive(Clone, Copy)]
pub struct Text<'a>(pub &'a [u8]);

impl fmt::Display for Text<'_> {
    fn fmt<W: fmt::Write>(&self, f: &mut fmt::Formatter<W>) -> fmt::Result {
        for octet in self.0 {
            match *octet {
                b'\\' => f.write_str("\\x5c")?,
                b' '..=b'~' => write!(f, "{}", char::from(*octet))?,
                _ => write!(f, "\\x{octet:02x}")?,
            }
        }
        Ok(())
    }
}

// Prints each field of a block as it is handed on. A field has no answer to give back, so a print that fails is kept in
// mind.
#[derive(Drop)]
pub struct Printer<'r> {
    pub output: Output<'r>,
    pub failed: Cell<bool>,
}

// The fold has nothing to remember: what is printed is outside.
impl<'r> Fold for Printer<'r> {
    ghost step = { λ p _ _. p };

    fn field(&mut self, name: &[u8], value: &[u8])
        ensures { self.new ≡ self.old }
    {
        let told = self
            .output
            .tell(format_args!("field {}: {}", Text(name), Text(value)));
        if told.is_err() {
            self.failed.set(true);
        }
    }
}

// The entries of a table, the newest first, each with its index; then what all cost. They are told in one piece, since
// each piece has a buffer and a write of its own.
#[derive(Clone, Copy)]
pub struct ShownTable<'a> {
    pub table: &'a Table,
    pub line: usize,
}

impl fmt::Display for ShownTable<'_> {
    fn fmt<W: fmt::Write>(&self, f: &mut fmt::Formatter<W>) -> fmt::Result {
        let line = self.line;
        for (place, (name, value)) in self.table.entries().enumerate() {
            let index = place.wrapping_add(62);
            writeln!(f, "{line} table {index} {}: {}", Text(name), Text(value))?;
        }
        let size = self.table.size();
        write!(f, "{line} table size {size}")
    }
}
