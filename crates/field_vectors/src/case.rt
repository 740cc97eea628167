// The parts of a case: octets in hexadecimal, and an integer behind a prefix of so many bits.
ghost use Rattle.std.specs.Prelude.{◌≡◌, ◌*◌, ◌<◌, ◌≤◌, length, IfOk, vec_len};
ghost use Rattle.primitives.specs.Integers.{integer_of};

use anyhow::anyhow;
use primitives::integer::{Prefix, read_integer};
use std::alloc::Global;

// The integer behind a prefix of 4 to 8 bits, and its octets.
pub fn integer_of(bits: u8, octets: &[u8]) -> Option<(u32, usize)>
    ensures { 4 ≤ bits → bits ≤ 8 → result ≡ integer_of bits octets.now }
{
    read_integer(Prefix::try_from(bits).ok()?, octets)
}

fn digit(c: u8) -> anyhow::Result<u8>
    ensures { IfOk result (λ d. d < 16) }
{
    match c {
        b'0'..=b'9' => Ok(c - b'0'),
        b'a'..=b'f' => Ok(c - b'a' + 10),
        _ => Err(anyhow!("a digit is 0 to 9 or a to f")),
    }
}

// The octets that a text spells, two digits to an octet. (The kit's crate hex takes capitals too, which are refused
// here.)
pub fn octets_of(heap: Global, hex: &str) -> anyhow::Result<Vec<u8>>
    ensures { IfOk result (λ v. 2 * vec_len v ≡ length hex.now) }
{
    let (pairs, odd) = hex.as_bytes().as_chunks::<2>();
    if !odd.is_empty() {
        return Err(anyhow!("an octet has two digits"));
    }
    let mut octets = Vec::new(heap);
    for [high, low] in pairs {
        octets.push(digit(*high)? * 16 + digit(*low)?)?;
    }
    Ok(octets)
}
