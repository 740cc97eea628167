// The parts of a text, one after the other: the words of a line, and what colons part in an offer. Any iterator of
// parts is taken, and each function here asks its next, so that each has to ask whether it may (`can_next`).
ghost use Rattle.std.specs.Prelude.{◌≡◌, Some, Ok, IfOk};
ghost use Rattle.std.specs.Result.{result_ok};

use crate::problem::Problem;

// The next part.
pub fn next_part<'a, I: Iterator<Item = &'a str>>(parts: &mut I) -> Result<&'a str, Problem<'a>>
    requires { I.can_next parts.old }
    ensures { I.next_gives parts.old (result_ok result) parts.new }
{
    parts.next().ok_or(Problem::MissingWord)
}

// What the next part stands for.
pub fn next<'a, T: TryFrom<&'a str, Error = Problem<'a>>, I: Iterator<Item = &'a str>>(
    parts: &mut I,
) -> Result<T, Problem<'a>>
    requires { I.can_next parts.old }
    ensures { IfOk result (λ x. (text : _) × T.try_from_gives text (Ok x)) }
{
    T::try_from(next_part(parts)?)
}

// No part is left.
pub fn end<'a, I: Iterator<Item = &'a str>>(parts: &mut I) -> Result<(), Problem<'a>>
    requires { I.can_next parts.old }
    ensures { IfOk result (λ _. I.next_gives parts.old None parts.new) }
{
    match parts.next() {
        Some(extra) => Err(Problem::ExtraWord(extra)),
        None => Ok(()),
    }
}
