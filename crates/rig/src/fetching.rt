// Fetching a path from the site of a script.
ghost use Rattle.std.specs.Prelude.{◌≡◌};
ghost use Rattle.std.specs.Option.{option_map};
ghost use Rattle.slices.specs.Surveys.{survey_of};
ghost use Rattle.rig.specs.Fetched.{Fetched, under};

use script::line::{Base, Layers, Site};
use shelf::refusal::Refusal;
use shelf::shelf::Shelf;
use shelf::sound::Sound;
use site::line::LineTest;
use slices::slice::Slice;
use slices::survey::{Survey, fetch};

// What a path names under layers of slices over a site. The layers make three types, each called once: a closure or a
// `dyn` for each would be no plainer.
fn layered<S: site::site::Site + Drop>(layers: Layers, mut base: S, path: &[u8]) -> Option<Survey>
    ensures { result ≡ option_map survey_of (under layers (S.Site.named base) path.now) }
{
    match layers {
        Layers::Zero => fetch(&mut base, 0, path),
        Layers::One => fetch(&mut Slice::new(base), 0, path),
        Layers::Two => fetch(&mut Slice::new(Slice::new(base)), 0, path),
    }
}

// What a path names in the site of a script; a malformed shelf is refused.
pub fn fetched(site: &Site<Vec<u8>>, path: &[u8]) -> Result<Option<Survey>, Refusal>
    ensures { Fetched site.now path.now result }
{
    match &site.base {
        Base::LineTest => Ok(layered(site.layers, LineTest::new(), path)),
        Base::Shelf(octets) => {
            let shelf = Shelf::over(Sound::new(octets.as_slice())?);
            Ok(layered(site.layers, shelf, path))
        }
    }
}
