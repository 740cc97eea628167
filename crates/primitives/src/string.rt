// Strings: a length behind a prefix, and that many octets.
ghost use Rattle.std.specs.Prelude.{◌≡◌, ◌≤◌, length, IfSome};
ghost use Rattle.primitives.specs.Strings.{string_of};
ghost use Rattle.primitives.specs.Views.{read_text};

use crate::integer::{Prefix, read_integer};

// The string at the front of the octets, and how many octets it takes with its length.
pub fn read_string(octets: &[u8]) -> Option<(&[u8], usize)>
    ensures value { read_text result ≡ string_of octets.now }
    ensures bound { IfSome result (λ p. p.1 ≤ length octets.now) }
{
    if let [128..=255, ..] = octets {
        return None;
    }
    let (length, used) = read_integer(Prefix::Seven, octets)?;
    let end = used + length as usize;
    Some((octets.get(used..end)?, end))
}
