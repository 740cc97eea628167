// A scheduler chosen at run time: an enum that holds it, since a boxed one would need memory from a heap.
use scheduler::drr::Drr;
use scheduler::meaning::Scheduler;
use scheduler::offer::Row;
use scheduler::urgency::Urgency;

#[derive(Clone, Copy)]
pub enum Policy {
    RoundRobin(Drr),
    Leashed(Urgency),
}

// Each call is that of the scheduler it holds.
impl Scheduler for Policy {
    ghost use Rattle.std.specs.Prelude.{◌≡◌};
    ghost use Rattle.scheduler.specs.Fair.{Fair};
    ghost use Rattle.policies.specs.Policies.{policy_lag, policy_debt, Stepped};
    ghost use Rattle.policies.specs.Laws.{policy_debt_bounded};

    ghost lag = { policy_lag };

    ghost debt = { policy_debt };

    ghost bounded = { λ p i j _ _. policy_debt_bounded p i j };

    fn lag(&self) -> u64
        ensures { result ≡ policy_lag self.now }
    {
        match self {
            Policy::RoundRobin(drr) => drr.lag(),
            Policy::Leashed(urgency) => urgency.lag(),
        }
    }

    fn pick(&mut self, offers: &Row) -> Option<usize>
        ensures fair { Fair {S = Policy} policy_lag policy_debt offers.now self.old self.new result }
        ensures value { Stepped offers.now self.old self.new result }
    {
        match self {
            Policy::RoundRobin(drr) => drr.pick(offers),
            Policy::Leashed(urgency) => urgency.pick(offers),
        }
    }
}
