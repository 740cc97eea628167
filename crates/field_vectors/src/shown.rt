// Fields and tables as the RFC shows them.
ghost use Rattle.std.specs.Prelude.{◌≡◌};

use hpack::decode::Fold;
use std::cell::Cell;
use std::fmt;
use tables::table::Table;

// Octets, each as the character of its number: the rig prints what is no printable ASCII character as `\xNN` instead.
#[derive(Clone, Copy)]
pub struct Text<'a>(pub &'a [u8]);

impl<'a> fmt::Display for Text<'a> {
    fn fmt<W: fmt::Write>(&self, f: &mut fmt::Formatter<W>) -> fmt::Result {
        for octet in self.0 {
            let character = char::from(*octet);
            write!(f, "{character}")?;
        }
        Ok(())
    }
}

// Prints each field of a block as it is handed on, in the RFC's words and not in the rig's. A field has no answer to
// give back, so a print that fails is kept in mind.
#[derive(Drop)]
pub struct Printer<'a> {
    pub rt: &'a HostRuntime,
    pub failed: Cell<bool>,
}

// The fold has nothing to remember: what is printed is outside.
impl<'a> Fold for Printer<'a> {
    ghost step = { λ p _ _. p };

    fn field(&mut self, name: &[u8], value: &[u8])
        ensures { self.new ≡ self.old }
    {
        let name = Text(name);
        let value = Text(value);
        if println!(self.rt; "{name}: {value}").is_err() {
            self.failed.set(true);
        }
    }
}

// What was read as an integer: the value, and how many octets it took.
#[derive(Clone, Copy)]
pub struct ShownInteger(pub Option<(u32, usize)>);

impl fmt::Display for ShownInteger {
    fn fmt<W: fmt::Write>(&self, f: &mut fmt::Formatter<W>) -> fmt::Result {
        match self.0 {
            Some((value, used)) => write!(f, "{value}, {used} octets"),
            None => write!(f, "no integer"),
        }
    }
}

// The entries of a table, the newest first, each with its cost; then what all cost.
#[derive(Clone, Copy)]
pub struct ShownTable<'a>(pub &'a Table);

impl<'a> fmt::Display for ShownTable<'a> {
    fn fmt<W: fmt::Write>(&self, f: &mut fmt::Formatter<W>) -> fmt::Result {
        for (place, (name, value)) in self.0.entries().enumerate() {
            let index = place.wrapping_add(1);
            let cost = name.len().wrapping_add(value.len()).wrapping_add(32);
            let name = Text(name);
            let value = Text(value);
            writeln!(f, "[{index:>3}] (s = {cost:>3}) {name}: {value}")?;
        }
        let size = self.0.size();
        write!(f, "      Table size: {size:>3}")
    }
}
