// Runs of picks over rows of offers.
ghost use Rattle.std.specs.Prelude.{◌≡◌, length, take, drop};
ghost use Rattle.scheduler.specs.Runs.{Ran, RunLaw, Stopped};

use super::meaning::Scheduler;
use super::offer::Row;
use super::pick::{Outcome, Pick, Stop};

// Runs a scheduler over rows of offers, one pick a row, and writes the picks. It stops when the rows or the room end,
// or at a row that offers nothing. Whatever the scheduler, the run keeps the law of its lag. The caller lends the room
// for the picks, since schedulers have fixed memory and allocate nothing.
pub fn replay<S: Scheduler>(scheduler: &mut S, rows: &[Row], picks: &mut [Pick]) -> Outcome
    ensures cases { Stopped result.stop result.made rows.now (length picks.old) }
    ensures items { Ran S.Scheduler.lag S.Scheduler.debt scheduler.old (take result.made rows.now) (take result.made picks.new) scheduler.new }
    ensures same { drop result.made picks.new ≡ drop result.made picks.old }
    ensures fair { RunLaw (S.Scheduler.lag scheduler.old) (take result.made rows.now) (take result.made picks.new) }
{
    for (made, pick) in picks.iter_mut().enumerate() {
        let Some(row) = rows.get(made) else {
            return Outcome {
                made,
                stop: Stop::Spent,
            };
        };
        let Some(place) = scheduler.pick(row) else {
            return Outcome {
                made,
                stop: Stop::Idle,
            };
        };
        *pick = Pick {
            place,
            charge: row[place].charge(),
        };
    }
    let stop = if picks.len() == rows.len() {
        Stop::Spent
    } else {
        Stop::Full
    };
    Outcome {
        made: picks.len(),
        stop,
    }
}
