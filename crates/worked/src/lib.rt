// The worked values of all rooms, as one fact about their definitions.
#![tactic(auto)]

ghost use Rattle.std.specs.Prelude.{◌≡◌, Some, None};
ghost use Rattle.worked.specs.Joint.{WorkedTogether};

use policies::worked::Worked;
use primitives::integer::{Prefix, read_integer};

// What the code answers at the worked values.
#[derive(Clone, Copy)]
pub struct Sheet {
    // With a prefix of 5 bits, 0x1f9a0a and 0x0a: value and octets used.
    pub integers: (Option<(u32, usize)>, Option<(u32, usize)>),
    // Charges at urgencies 0 and 7, and frames on end under both schedulers.
    pub schedules: Worked,
    // The counts of /line/5;4-9 and /line/5;5-9.
    pub slices: (Option<u32>, Option<u32>),
}

// The worked values, which the definitions give all together.
pub fn worked_values() -> Sheet
    ensures value { (result.integers ≡ (Some (1337, 3), Some (10, 1))) × (result.slices ≡ (Some 1, None)) }
    ensures together { WorkedTogether }
{
    Sheet {
        integers: (
            read_integer(Prefix::Five, &[0x1f, 0x9a, 0x0a]),
            read_integer(Prefix::Five, &[0x0a]),
        ),
        schedules: policies::worked::worked_values(),
        slices: slices::worked::worked_values(),
    }
}
