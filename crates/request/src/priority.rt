// The priority of a response (RFC 9218): one of eight urgencies, 0 the most urgent, and whether it is of use piece by
// piece.
ghost use Rattle.std.specs.Prelude.{◌≡◌, ◌≤◌, Some, None, MatchResult};
ghost use Rattle.request.specs.Priorities.{urgency_number, urgency_of};

#[derive(Clone, Copy, Debug, PartialEq, Eq)]
pub enum Urgency {
    U0,
    U1,
    U2,
    U3,
    U4,
    U5,
    U6,
    U7,
}

impl From<Urgency> for u8 {
    ghost from_gives = { λ urgency number. (number ≡ urgency_number urgency) × (number ≤ 7) };

    fn from(urgency: Urgency) -> u8 {
        urgency as u8
    }
}

// A member of a priority field that names no urgency.
#[derive(Clone, Copy, Debug, PartialEq, Eq)]
pub struct NoUrgency;

// The urgency that a trimmed member names: exactly one of these eight.
impl TryFrom<&[u8]> for Urgency {
    type Error = NoUrgency;

    ghost try_from_gives = { λ member r. MatchResult r (λ urgency. urgency_of member.now ≡ Some urgency) (λ _. urgency_of member.now ≡ None) };

    fn try_from(member: &[u8]) -> Result<Urgency, NoUrgency> {
        match member {
            b"u=0" => Ok(Urgency::U0),
            b"u=1" => Ok(Urgency::U1),
            b"u=2" => Ok(Urgency::U2),
            b"u=3" => Ok(Urgency::U3),
            b"u=4" => Ok(Urgency::U4),
            b"u=5" => Ok(Urgency::U5),
            b"u=6" => Ok(Urgency::U6),
            b"u=7" => Ok(Urgency::U7),
            _ => Err(NoUrgency),
        }
    }
}

#[derive(Clone, Copy, Debug, PartialEq, Eq)]
pub struct Priority {
    pub urgency: Urgency,
    pub incremental: bool,
}
