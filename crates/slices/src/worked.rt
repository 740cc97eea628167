// Worked values: two slices of a line of five octets.
ghost use Rattle.std.specs.Prelude.{◌≡◌, Some, None};
ghost use Rattle.site.specs.Lines.{line_named};
ghost use Rattle.site.specs.Sites.{count_of};
ghost use Rattle.slices.specs.Slices.{slice_named};
ghost use Rattle.slices.specs.Worked.{Worked};

use super::slice::Slice;
use site::line::LineTest;
use site::site::Site;

// The count of what a path names above the line test.
fn count(path: &[u8]) -> Option<u32>
    ensures { result ≡ count_of (slice_named line_named path.now) }
{
    let mut site = Slice::new(LineTest::new());
    site.open(0, path)
}

// The counts of /line/5;4-9, which is the octet 4, and of /line/5;5-9, which is unnamed, as the site answers them; what the
// paths name is worked out from the definitions.
pub fn worked_values() -> (Option<u32>, Option<u32>)
    ensures same { Worked }
    ensures value { result ≡ (Some 1, None) }
{
    (count(b"/line/5;4-9"), count(b"/line/5;5-9"))
}
