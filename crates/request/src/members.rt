// The members of a priority field.
ghost use Rattle.std.specs.Prelude.{◌≡◌, ◌≤◌, length};
ghost use Rattle.request.specs.Priorities.{is_blank, told, trimmed, split_at_commas, members_told};
ghost use Rattle.std.specs.List.{prefix_len, suffix_len};

use crate::priority::{NoUrgency, Priority, Urgency};

fn is_blank(c: u8) -> bool
    ensures { result ≡ is_blank c }
{
    matches!(c, b' ' | b'\t')
}

// How many blanks a member begins with.
fn blanks_before(member: &[u8]) -> usize
    ensures value { result ≡ prefix_len is_blank member.now }
    ensures bound { result ≤ length member.now }
{
    member.iter().take_while(|c| is_blank(**c)).count()
}

// How many blanks a member ends with. (The same the other way round: one generic function over iterators would need
// clauses on what the iterator yields.)
fn blanks_behind(member: &[u8]) -> usize
    ensures value { result ≡ suffix_len is_blank member.now }
    ensures bound { result ≤ length member.now }
{
    member.iter().rev().take_while(|c| is_blank(**c)).count()
}

// A member without the blanks at its ends.
fn trim(member: &[u8]) -> &[u8]
    ensures { result.now ≡ trimmed member.now }
{
    let (_, rest) = member.split_at(blanks_before(member));
    let (text, _) = rest.split_at(rest.len() - blanks_behind(rest));
    text
}

impl Priority {
    // What a trimmed member does to the priority so far.
    fn told(self, member: &[u8]) -> Priority
        ensures { result ≡ told self member.now }
    {
        match member {
            b"i" | b"i=?1" => Priority {
                incremental: true,
                ..self
            },
            b"i=?0" => Priority {
                incremental: false,
                ..self
            },
            _ => match Urgency::try_from(member) {
                Ok(urgency) => Priority { urgency, ..self },
                Err(NoUrgency) => self,
            },
        }
    }

    // What a priority field does to the priority so far, member by member.
    pub(crate) fn told_by(self, list: &[u8]) -> Priority
        ensures { result ≡ members_told self (split_at_commas list.now) }
    {
        list.split(|c| *c == b',')
            .fold(self, |priority, member| priority.told(trim(member)))
    }
}
