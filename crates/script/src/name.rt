// What single words of a line name.
use crate::problem::Problem;

#[derive(Clone, Copy)]
pub enum Scheduler {
    Drr,
    Urgency,
}

#[derive(Clone, Copy)]
pub enum Reply {
    Yes,
    No,
}

// The one thing to show.
#[derive(Clone, Copy)]
pub enum Shown {
    Octets,
}

impl<'a> TryFrom<&'a str> for Scheduler {
    type Error = Problem<'a>;

    ghost use Rattle.script.specs.Words.{Spells};
    ghost use Rattle.script.specs.Names.{scheduler_spelling};

    ghost try_from_gives = { Spells scheduler_spelling };

    fn try_from(text: &'a str) -> Result<Scheduler, Problem<'a>> {
        match text {
            "drr" => Ok(Scheduler::Drr),
            "urgency" => Ok(Scheduler::Urgency),
            _ => Err(Problem::UnknownWord(text)),
        }
    }
}

impl<'a> TryFrom<&'a str> for Reply {
    type Error = Problem<'a>;

    ghost use Rattle.script.specs.Words.{Spells};
    ghost use Rattle.script.specs.Names.{reply_spelling};

    ghost try_from_gives = { Spells reply_spelling };

    fn try_from(text: &'a str) -> Result<Reply, Problem<'a>> {
        match text {
            "yes" => Ok(Reply::Yes),
            "no" => Ok(Reply::No),
            _ => Err(Problem::UnknownWord(text)),
        }
    }
}

impl<'a> TryFrom<&'a str> for Shown {
    type Error = Problem<'a>;

    ghost use Rattle.script.specs.Words.{Spells};
    ghost use Rattle.script.specs.Names.{shown_spelling};

    ghost try_from_gives = { Spells shown_spelling };

    fn try_from(text: &'a str) -> Result<Shown, Problem<'a>> {
        match text {
            "octets" => Ok(Shown::Octets),
            _ => Err(Problem::UnknownWord(text)),
        }
    }
}
