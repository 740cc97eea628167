// Schedulers on examples: the worked values, the ranges of an offer, and why a run stops.
#![tactic(auto)]

#[cfg(test)]
mod tests {
    use policies::policy::Policy;
    use policies::worked::worked_values;
    use scheduler::drr::Drr;
    use scheduler::meaning::Scheduler;
    use scheduler::offer::{Offer, OutOfRange, Row};
    use scheduler::pick::{Outcome, Pick, Stop};
    use scheduler::run::replay;
    use scheduler::urgency::Urgency;
    use std::process::Abort;
    use std::test::Fail;

    // Places 0 and 1 offer 1,024 octets each at two urgencies.
    fn two(first: u8, second: u8) -> Result<Row, OutOfRange> {
        let mut offers = [Offer::nothing(); 16];
        offers[0] = Offer::new(1024, first, false, 1)?;
        offers[1] = Offer::new(1024, second, false, 3)?;
        Ok(offers)
    }

    // As many picks of place 0 as the first number says, then of place 1, and so on in turn.
    fn gives<S: Scheduler>(rt: &impl Abort, scheduler: &mut S, offers: &Row, frames: &[u8]) {
        for (turn, n) in frames.iter().enumerate() {
            for _ in 0..*n {
                assert_eq!(rt; scheduler.pick(offers), Some(turn % 2));
            }
        }
    }

    #[test]
    fn the_worked_values_come_out(rt: HostRuntime) -> Result<(), Fail> {
        let worked = worked_values();
        let round = two(3, 7)?;
        let urgent = two(0, 7)?;
        assert_eq!(rt; urgent[0].charge(), worked.charges[0]);
        assert_eq!(rt; urgent[1].charge(), worked.charges[1]);
        gives(
            &rt,
            &mut Policy::RoundRobin(Drr::new()),
            &round,
            &worked.drr,
        );
        gives(
            &rt,
            &mut Policy::Leashed(Urgency::new()),
            &urgent,
            &worked.urgency,
        );
        Ok(())
    }

    #[test]
    fn offers_out_of_range_are_refused(rt: HostRuntime) {
        let cases = [
            (0, 0, None),
            (1024, 7, None),
            (1025, 7, Some(OutOfRange::Octets)),
            (1024, 8, Some(OutOfRange::Urgency)),
            (65535, 255, Some(OutOfRange::Octets)),
        ];
        for (octets, urgency, refused) in cases {
            assert_eq!(rt; Offer::new(octets, urgency, true, 1).err(), refused);
        }
    }

    #[test]
    fn a_run_says_why_it_stopped(rt: HostRuntime) -> Result<(), Fail> {
        let row = two(3, 7)?;
        let mut picks = [Pick {
            place: 0,
            charge: 0,
        }; 3];
        let mut scheduler = Drr::new();
        let idle = replay(&mut scheduler, &[row, [Offer::nothing(); 16]], &mut picks);
        assert_eq!(rt;
            idle,
            Outcome {
                made: 1,
                stop: Stop::Idle
            }
        );
        let spent = replay(&mut scheduler, &[row, row, row], &mut picks);
        assert_eq!(rt;
            spent,
            Outcome {
                made: 3,
                stop: Stop::Spent
            }
        );
        let full = replay(&mut scheduler, &[row; 4], &mut picks);
        assert_eq!(rt;
            full,
            Outcome {
                made: 3,
                stop: Stop::Full
            }
        );
        assert_eq!(rt;
            picks[1],
            Pick {
                place: 1,
                charge: 860160
            }
        );
        Ok(())
    }
}
