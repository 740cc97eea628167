// Integers behind a prefix: the low bits of an octet, and up to four further octets.
ghost use Rattle.std.specs.Prelude.{◌≡◌, ◌+◌, ◌^◌, ◌<◌, ◌≤◌, length, take, IfSome};
ghost use Rattle.primitives.specs.Integers.{integer_of, further, WorkedIntegers};
ghost use Rattle.primitives.specs.Prefixes.{bits_of};

// How many bits of its first octet an integer takes: eight where it begins at an octet of its own.
#[derive(Clone, Copy)]
pub enum Prefix {
    Four,
    Five,
    Six,
    Seven,
    Eight,
}

// A number that is no number of prefix bits.
#[derive(Clone, Copy, Debug, PartialEq, Eq)]
pub struct NoPrefix(pub u8);

// The prefix of so many bits: there are those of 4 to 8.
impl TryFrom<u8> for Prefix {
    ghost use Rattle.primitives.specs.Prefixes.{IsPrefixOf};

    type Error = NoPrefix;

    ghost try_from_gives = { IsPrefixOf };

    fn try_from(bits: u8) -> Result<Prefix, NoPrefix> {
        match bits {
            4 => Ok(Prefix::Four),
            5 => Ok(Prefix::Five),
            6 => Ok(Prefix::Six),
            7 => Ok(Prefix::Seven),
            8 => Ok(Prefix::Eight),
            _ => Err(NoPrefix(bits)),
        }
    }
}

impl Prefix {
    // How many numbers the bits can tell apart.
    fn size(self) -> u16
        ensures value { result ≡ 2 ^ bits_of self }
        ensures low { 0 < result }
        ensures high { result ≤ 256 }
    {
        match self {
            Prefix::Four => 16,
            Prefix::Five => 32,
            Prefix::Six => 64,
            Prefix::Seven => 128,
            Prefix::Eight => 256,
        }
    }
}

// The integer at the front of the octets, and how many octets it takes. More than four further octets are refused.
pub fn read_integer(prefix: Prefix, octets: &[u8]) -> Option<(u32, usize)>
    ensures value { result ≡ integer_of (bits_of prefix) octets.now }
    ensures bound { IfSome result (λ p. p.1 ≤ length octets.now) }
    ensures moves { IfSome result (λ p. 1 ≤ p.1) }
    ensures worked { WorkedIntegers }
{
    let size = prefix.size();
    let (first, rest) = octets.split_first()?;
    let low = u16::from(*first) % size;
    if low < size - 1 {
        return Some((u32::from(low), 1));
    }
    read_further(low, rest)
}

// The sum of a full prefix and the further octets, of which only the last has its top bit clear.
// An arm for each number of them is plainer here than a loop: each shows its sum, and no bound has to be carried on.
fn read_further(low: u16, octets: &[u8]) -> Option<(u32, usize)>
    requires { low < 256 }
    ensures value { result ≡ further low 1 1 (take 4 octets.now) }
    ensures bound { IfSome result (λ p. p.1 ≤ length octets.now + 1) }
    ensures moves { IfSome result (λ p. 1 ≤ p.1) }
{
    let base = u32::from(low);
    match octets {
        [a, ..] if *a < 128 => Some((base + u32::from(*a), 2)),
        [a, b, ..] if *b < 128 => Some((base + u32::from(*a - 128) + u32::from(*b) * 128, 3)),
        [a, b, c, ..] if *c < 128 => {
            Some((
                base + u32::from(*a - 128) + u32::from(*b - 128) * 128 + u32::from(*c) * 16384,
                4,
            ))
        }
        [a, b, c, d, ..] if *d < 128 => Some((
            base + u32::from(*a - 128)
                + u32::from(*b - 128) * 128
                + u32::from(*c - 128) * 16384
                + u32::from(*d) * 2097152,
            5,
        )),
        _ => None,
    }
}
