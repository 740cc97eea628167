// Picks over the offers of a script.
ghost use Rattle.std.specs.Prelude.{◌≡◌, ◌≤◌, IfOk, vec_len};
ghost use Rattle.rig.specs.Tally.{frames_of};

use crate::tally::{ahead, frames};
use policies::policy::Policy;
use scheduler::offer::{Offer, Row};
use scheduler::pick::Pick;
use scheduler::run::replay;
use script::problem::Problem;
use std::alloc::Global;
use std::fmt;

// A scheduler, and what the sixteen places offer it.
#[derive(Clone, Copy)]
pub struct Contest {
    pub policy: Policy,
    pub offers: Row,
}

impl Contest {
    // The picks of a run at offers that stay the same; no place runs ahead of one that offers by more than the lag.
    pub fn picks(&mut self, heap: Global, count: usize) -> Result<Vec<Pick>, Problem<'static>>
        ensures { IfOk result (λ picks. vec_len picks ≤ count) }
    {
        let none = Pick {
            place: 0,
            charge: 0,
        };
        let rows = vec![in heap; self.offers; count]?;
        let mut picks = vec![in heap; none; count]?;
        let outcome = replay(&mut self.policy, &rows, &mut picks);
        picks.truncate(outcome.made);
        Ok(picks)
    }

    // What a run of picks gave to a place.
    pub fn share(&self, picks: &[Pick], place: usize) -> Share
        ensures place { result.place ≡ place }
        ensures frames { result.frames ≡ frames_of place picks.now }
    {
        let frames = frames(picks, place);
        let offer = self.offers.get(place).copied().unwrap_or(Offer::nothing());
        let ahead = self
            .offers
            .iter()
            .enumerate()
            .filter(|(other, offer)| *other != place && offer.has_octets())
            .map(|(other, _)| ahead(picks, place, other))
            .max();
        Share {
            place,
            frames,
            octets: frames as u128 * u128::from(offer.octets()),
            charge: frames as u128 * u128::from(offer.charge()),
            ahead: ahead.unwrap_or(0),
        }
    }
}

// What a run of picks gave to one place, and the most by which it was ahead of another place that offers.
#[derive(Clone, Copy)]
pub struct Share {
    pub place: usize,
    pub frames: usize,
    pub octets: u128,
    pub charge: u128,
    pub ahead: u128,
}

impl fmt::Display for Share {
    fn fmt<W: fmt::Write>(&self, f: &mut fmt::Formatter<W>) -> fmt::Result {
        let Share {
            place,
            frames,
            octets,
            charge,
            ahead,
        } = *self;
        write!(
            f,
            "place {place} frames {frames} octets {octets} charge {charge} ahead {ahead}"
        )
    }
}
