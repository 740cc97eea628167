// Deficit round robin.
ghost use Rattle.std.specs.Prelude.{◌≡◌, ℕ, ◌+◌, ◌-◌, ◌*◌, ◌<◌, ◌≤◌, ◌&&◌, cond, replicate, ◌≢◌, nat_le, nat_lt, slice_index};
ghost use Rattle.scheduler.specs.Fair.{Fair};
ghost use Rattle.scheduler.specs.Offers.{charge_of, largest};
ghost use Rattle.scheduler.specs.Rounds.{walk as walk_over, drr_pick, standing};
ghost use Rattle.scheduler.specs.Turns.{Reached};
ghost use Rattle.scheduler.specs.Debts.{drr_lag, drr_debt, Arrived};
ghost use Rattle.scheduler.specs.Laws.{drr_debt_bounded};

use super::meaning::Scheduler;
use super::offer::{LARGEST_CHARGE, Offer, Row};

// What a place is given when the round reaches it. It covers every offer.
const QUANTUM: u32 = LARGEST_CHARGE;

// What each place has left of what it was given, and the place whose turn it is.
#[derive(Clone, Copy)]
pub struct Drr {
    balances: [u32; 16],
    current: usize,
    ghost within: { current < 16 },
    ghost low: { (k : ℕ) → (k ≢ current) → slice_index balances k ≤ largest - 1 },
    ghost here: { slice_index balances current ≤ 2 * largest - 2 },
}

impl Drr {
    // The round begins before place 0.
    pub fn new() -> Drr
        ensures { (result.balances ≡ replicate 16 0) × (result.current ≡ 15) }
    {
        Drr {
            balances: [0; 16],
            current: 15,
        }
    }
}

// Whether a balance covers an offer of its place.
fn covered(balance: u32, offer: &Offer) -> bool
    ensures { result ≡ (nat_lt 0 offer.now.octets && nat_le (charge_of offer.now) balance) }
{
    offer.has_octets() && offer.charge() <= balance
}

// A balance after its place has paid for an offer.
fn paid(balance: u32, offer: &Offer) -> u32
    requires { charge_of offer.now ≤ balance }
    ensures { result ≡ balance - charge_of offer.now }
{
    balance - offer.charge()
}

// A balance as the round goes on from its place: one without an offer loses it.
fn left(balance: u32, offer: &Offer) -> u32
    ensures { result ≡ cond (nat_lt 0 offer.now.octets) balance 0 }
{
    if offer.has_octets() { balance } else { 0 }
}

// On from a place, round the ring, to the next that offers, which is given T and pays its charge.
fn walk(balances: &mut [u32; 16], start: usize, offers: &Row) -> Option<usize>
    requires { (start < 16) × ((k : ℕ) → slice_index balances.old k ≤ largest - 1) }
    ensures value { (result, balances.new) ≡ walk_over 16 balances.old start offers.now }
    ensures cases { Arrived balances.old start offers.now result balances.new }
{
    for place in (start + 1..start + 17).map(|place| place % 16) {
        let offer = &offers[place];
        if offer.has_octets() {
            balances[place] = paid(balances[place] + QUANTUM, offer);
            return Some(place);
        }
        balances[place] = 0;
    }
    None
}

impl Scheduler for Drr {
    ghost lag = { λ _. drr_lag };

    ghost debt = { λ s. drr_debt s.balances s.current };

    ghost bounded = { λ s i j _ _. drr_debt_bounded s.balances s.current i j s.low s.here };

    fn lag(&self) -> u64
        ensures { result ≡ drr_lag }
    {
        3 * u64::from(QUANTUM) - 2
    }

    fn pick(&mut self, offers: &Row) -> Option<usize>
        ensures fair { Fair {S = Drr} (λ _. drr_lag) (λ s. drr_debt s.balances s.current) offers.now self.old self.new result }
        ensures value { (result, self.new.balances) ≡ drr_pick self.old.balances self.old.current offers.now }
        ensures after { self.new.current ≡ standing self.old.current result }
        ensures reached { Reached self.new.balances self.new.current }
    {
        let mut balances = self.balances;
        let place = self.current;
        let offer = &offers[place];
        if covered(balances[place], offer) {
            balances[place] = paid(balances[place], offer);
            self.balances = balances;
            return Some(place);
        }
        balances[place] = left(balances[place], offer);
        let current = walk(&mut balances, place, offers)?;
        *self = Drr { balances, current };
        Some(current)
    }
}
