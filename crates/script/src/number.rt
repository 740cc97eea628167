// Numbers in a script.
ghost use Rattle.std.specs.Prelude.{◌≡◌, ◌≤◌, IfErr};
ghost use Rattle.script.specs.Text.{NumberWithin};
ghost use Rattle.script.specs.declared.problem.Problem.TheVariants.{BadNumber};

use crate::problem::Problem;

// The number that the text writes in decimal digits, if it is from `least` to `most`; else the text and the range are told.
pub fn number(text: &str, least: u32, most: u32) -> Result<u32, Problem<'_>>
    ensures value { NumberWithin text.now least most result }
    ensures error { IfErr result (λ p. p ≡ BadNumber text.entry least most) }
{
    match text.parse() {
        Ok(value) if least <= value && value <= most => Ok(value),
        _ => Err(Problem::BadNumber { text, least, most }),
    }
}

// A number from `LEAST` to `MOST`.
#[derive(Clone, Copy)]
pub struct Within<const LEAST: u32, const MOST: u32> {
    pub value: u32,
    ghost least: { LEAST ≤ value },
    ghost most: { value ≤ MOST },
}

// The number that the text writes in decimal digits, if it is in its range.
impl<'a, const LEAST: u32, const MOST: u32> TryFrom<&'a str> for Within<LEAST, MOST> {
    type Error = Problem<'a>;

    ghost use Rattle.script.specs.Numbers.{NamesNumber};

    ghost try_from_gives = { NamesNumber (λ n. n.value) LEAST MOST };

    fn try_from(text: &'a str) -> Result<Within<LEAST, MOST>, Problem<'a>> {
        let value = number(text, LEAST, MOST)?;
        Ok(Within { value })
    }
}
