// What a run of picks gave to each place. Picks and place are all that these questions have, so that they stay
// parameters.
ghost use Rattle.std.specs.Prelude.{◌≡◌, ◌+◌, ◌^◌, ◌<◌, ◌≤◌};
ghost use Rattle.rig.specs.Tally.{lead_after, most_ahead, frames_of};

use scheduler::pick::Pick;

// How many of the picks chose the place.
pub fn frames(picks: &[Pick], place: usize) -> usize
    ensures { result ≡ frames_of place picks.now }
{
    picks.iter().filter(|pick| pick.place == place).count()
}

// By how much one place is ahead of another after a further pick; one that falls behind starts anew.
fn lead_after(lead: u128, pick: Pick, place: usize, other: usize) -> u128
    requires { lead < 2 ^ 100 }
    ensures value { result ≡ lead_after place other lead pick }
    ensures bound { result ≤ lead + 4294967295 }
{
    if pick.place == place {
        lead + u128::from(pick.charge)
    } else if pick.place == other {
        lead.saturating_sub(u128::from(pick.charge))
    } else {
        lead
    }
}

// The most by which one place was ahead of another over any stretch of the picks.
pub fn ahead(picks: &[Pick], place: usize, other: usize) -> u128
    ensures { result ≡ most_ahead place other picks.now }
{
    let mut lead = 0;
    let mut most = 0u128;
    for pick in picks {
        lead = lead_after(lead, *pick, place, other);
        most = most.max(lead);
    }
    most
}
