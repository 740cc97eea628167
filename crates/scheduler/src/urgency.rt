// The most urgent first, of the places that are not too far ahead.
ghost use Rattle.std.specs.Prelude.{◌≡◌, ℕ, ◌+◌, ◌-◌, ◌<◌, ◌≤◌, ◌&&◌, Some, nat_le, nat_lt, replicate, slice_index};
ghost use Rattle.scheduler.specs.Fair.{Fair};
ghost use Rattle.scheduler.specs.Urgencies.{leash, lesser as lesser_of, least_lead, lessened, best, urgency_pick};
ghost use Rattle.scheduler.specs.Debts.{most_lead, urgency_lag, urgency_debt};
ghost use Rattle.scheduler.specs.Chosen.{LeastIs, ChosenIs, rank_of, outranks, first_rank, Foremost};
ghost use Rattle.scheduler.specs.Laws.{urgency_debt_bounded};

use super::meaning::Scheduler;
use super::offer::{LARGEST_CHARGE, Offer, Row};

// B: how far ahead a place may be and still be picked.
const LEASH: u32 = 4 * LARGEST_CHARGE;

// How far each place is ahead.
#[derive(Clone, Copy)]
pub struct Urgency {
    leads: [u32; 16],
    ghost low: { (k : ℕ) → slice_index leads k ≤ most_lead },
}

impl Urgency {
    // No place is ahead.
    pub fn new() -> Urgency
        ensures { result.leads ≡ replicate 16 0 }
    {
        Urgency { leads: [0; 16] }
    }
}

// What ranks a place, the least first: by urgency, then non-incremental before incremental, then by stream, or by lead
// if incremental, and then by place.
#[derive(Clone, Copy, PartialEq, Eq, PartialOrd, Ord)]
struct Rank {
    urgency: u8,
    incremental: bool,
    tie: u32,
    place: usize,
}

impl Rank {
    // The rank of a place with an offer at a lead.
    fn new(place: usize, offer: &Offer, lead: u32) -> Rank
        ensures { result ≡ rank_of place offer.now lead }
    {
        Rank {
            urgency: offer.urgency,
            incremental: offer.incremental,
            tie: if offer.incremental {
                lead
            } else {
                offer.stream
            },
            place,
        }
    }

    // Whether it goes before the rank of a lower place, which stays first where they differ by the place alone.
    fn beats(&self, lower: &Rank) -> bool
        ensures { result ≡ outranks self.now lower.now }
    {
        if self.urgency != lower.urgency {
            return self.urgency < lower.urgency;
        }
        if self.incremental != lower.incremental {
            return lower.incremental;
        }
        self.tie < lower.tie
    }

    // The first of the best rank of the lower places, if any, and this.
    fn or(self, lower: Option<Rank>) -> Rank
        ensures { result ≡ first_rank lower self }
    {
        match lower {
            Some(best) if !self.beats(&best) => best,
            _ => self,
        }
    }
}

// The lesser of the least so far, if any, and a further lead.
fn lesser(least: Option<u32>, lead: u32) -> u32
    ensures { Some result ≡ lesser_of least lead }
{
    match least {
        None => lead,
        Some(least) => least.min(lead),
    }
}

// The least lead of the offering places.
fn least(leads: &[u32; 16], offers: &Row) -> Option<u32>
    ensures value { result ≡ least_lead leads.now offers.now 16 }
    ensures cases { LeastIs leads.now offers.now 16 result }
{
    let mut least = None;
    for (place, offer) in offers.iter().enumerate() {
        if offer.has_octets() {
            least = Some(lesser(least, leads[place]));
        }
    }
    least
}

// All leads less by, not below 0.
fn lowered(leads: &[u32; 16], by: u32) -> [u32; 16]
    ensures { result ≡ lessened leads.now by }
{
    let mut lowered = *leads;
    for lead in lowered.iter_mut() {
        *lead = lead.saturating_sub(by);
    }
    lowered
}

// Whether a place with an offer at a lead may be picked.
fn may(offer: &Offer, lead: u32) -> bool
    ensures { result ≡ (nat_lt 0 offer.now.octets && nat_le lead leash) }
{
    offer.has_octets() && lead <= LEASH
}

// The best of the places that may be picked.
fn chosen(leads: &[u32; 16], offers: &Row) -> Option<usize>
    ensures value { result ≡ best leads.now offers.now 16 }
    ensures cases { ChosenIs leads.now offers.now 16 result }
{
    let mut first = None;
    for (place, offer) in offers.iter().enumerate() {
        if may(offer, leads[place]) {
            first = Some(Rank::new(place, offer, leads[place]).or(first));
        }
    }
    first.map(|rank| rank.place)
}

impl Scheduler for Urgency {
    ghost lag = { λ _. urgency_lag };

    ghost debt = { λ s. urgency_debt s.leads };

    ghost bounded = { λ s i j _ _. urgency_debt_bounded s.leads i j s.low };

    fn lag(&self) -> u64
        ensures { result ≡ urgency_lag }
    {
        2 * (u64::from(LEASH) + u64::from(LARGEST_CHARGE))
    }

    fn pick(&mut self, offers: &Row) -> Option<usize>
        ensures fair { Fair {S = Urgency} (λ _. urgency_lag) (λ s. urgency_debt s.leads) offers.now self.old self.new result }
        ensures value { (result, self.new.leads) ≡ urgency_pick self.old.leads offers.now }
        ensures foremost { Foremost self.old.leads offers.now result }
    {
        let least = least(&self.leads, offers)?;
        let mut leads = lowered(&self.leads, least);
        let place = chosen(&leads, offers)?;
        leads[place] += offers[place].charge();
        self.leads = leads;
        Some(place)
    }
}
