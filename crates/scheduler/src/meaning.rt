// The one meaning of every scheduler.
ghost use Rattle.std.specs.Prelude.{◌≡◌, ℕ, ◌<◌, ◌≤◌};
ghost use Rattle.scheduler.specs.Fair.{Fair};

use super::offer::Row;

// A scheduler picks one of sixteen places at a time, and owes each place that offers that no other runs ahead of it by
// more than the lag.
pub trait Scheduler {
    // How far one place may run ahead of another that keeps offering, in charge. No call alters it.
    ghost lag: { Self → ℕ };

    // What place j owes place i: it grows at least by what j is charged, and falls at most by what i is charged.
    ghost debt: { Self → ℕ → ℕ → ℕ };

    // The lag as a figure.
    fn lag(&self) -> u64
        ensures { result ≡ lag self.now };

    // The place to serve next, or none where no place offers.
    fn pick(&mut self, offers: &Row) -> Option<usize>
        ensures { Fair lag debt offers.now self.old self.new result };

    // Each debt is from 0 to the lag.
    ghost bounded: { (s : Self) (i j : ℕ) → i < 16 → j < 16 → debt s i j ≤ lag s };
}
