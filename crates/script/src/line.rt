// What one line of a script says.
ghost use Rattle.std.specs.Prelude.{◌≡◌, IfOk};
ghost use Rattle.script.specs.Lines.{base_spelling, Begins, code_of, setting_word, call_word};

use crate::name::{Reply, Scheduler, Shown};
use crate::number::Within;
use crate::offer::read_offer;
use crate::part::{end, next, next_part};
use crate::problem::Problem;
use crate::word::{CallWord, SettingWord, Word};
use scheduler::offer::{Offer, Row};
use std::str::SplitWhitespace;

// The most records that a script's book may have, and the most octets of a buffer.
pub const MOST_RECORDS: u32 = 100_000;

pub const MOST_OCTETS: u32 = 1_000_000;

// The most picks of one line.
pub const MOST_PICKS: u32 = 10_000;

#[derive(Clone, Copy)]
pub enum Line<'a> {
    Blank,
    Setting(Setting<'a>),
    Call(Call<'a>),
}

#[derive(Clone, Copy)]
pub enum Setting<'a> {
    Scheduler(Scheduler),
    Site(Site<&'a str>),
    Book(Within<0, MOST_RECORDS>),
    Show(Shown),
}

// What a site stands on, under layers of slices.
#[derive(Clone, Copy, Drop)]
pub struct Site<O> {
    pub layers: Layers,
    pub base: Base<O>,
}

// How many layers of slices lie over a site.
#[derive(Clone, Copy)]
pub enum Layers {
    Zero,
    One,
    Two,
}

// The line test, or a shelf and its octets: a script's words hold them in hexadecimal.
#[derive(Clone, Copy, Drop)]
pub enum Base<O> {
    LineTest,
    Shelf(O),
}

#[derive(Clone, Copy)]
pub enum Call<'a> {
    Greet(&'a str),
    Take(&'a str),
    Send(Within<0, MOST_OCTETS>),
    Claim,
    Answer {
        slip: Within<1, { u32::MAX }>,
        reply: Reply,
    },
    Shut,
    Offers(Row),
    Pick(Within<0, MOST_PICKS>),
    Fetch(&'a str),
    Block(&'a str),
}

impl<'a> Base<&'a str> {
    // What the word names, `line` or `shelf`; the next word holds the octets of a shelf.
    fn read(word: &'a str, words: &mut SplitWhitespace<'a>) -> Result<Base<&'a str>, Problem<'a>>
        ensures { IfOk result (λ b. word.now ≡ base_spelling b) }
    {
        match word {
            "line" => Ok(Base::LineTest),
            "shelf" => Ok(Base::Shelf(next_part(words)?)),
            _ => Err(Problem::UnknownWord(word)),
        }
    }
}

impl<'a> Site<&'a str> {
    // `slice` at most twice, then what the site stands on.
    fn read(words: &mut SplitWhitespace<'a>) -> Result<Site<&'a str>, Problem<'a>> {
        for layers in [Layers::Zero, Layers::One, Layers::Two] {
            let word = next_part(words)?;
            if word != "slice" {
                let base = Base::read(word, words)?;
                return Ok(Site { layers, base });
            }
        }
        Err(Problem::UnknownWord("slice"))
    }
}

// At most sixteen offers; places that are not named offer nothing.
fn read_offers<'a>(words: &mut SplitWhitespace<'a>) -> Result<Row, Problem<'a>> {
    let mut row = [Offer::nothing(); 16];
    for word in words.by_ref().take(16) {
        let (place, offer) = read_offer(word)?;
        row[place] = offer;
    }
    Ok(row)
}

impl<'a> Setting<'a> {
    // What follows the first word of a setting.
    fn read(word: SettingWord, words: &mut SplitWhitespace<'a>) -> Result<Setting<'a>, Problem<'a>>
        ensures made { IfOk result (λ s. setting_word s ≡ word) }
    {
        match word {
            SettingWord::Scheduler => Ok(Setting::Scheduler(next(words)?)),
            SettingWord::Site => Ok(Setting::Site(Site::read(words)?)),
            SettingWord::Book => Ok(Setting::Book(next(words)?)),
            SettingWord::Show => Ok(Setting::Show(next(words)?)),
        }
    }
}

impl<'a> Call<'a> {
    // What follows the first word of a call.
    fn read(word: CallWord, words: &mut SplitWhitespace<'a>) -> Result<Call<'a>, Problem<'a>>
        ensures made { IfOk result (λ k. call_word k ≡ word) }
    {
        match word {
            CallWord::Greet => Ok(Call::Greet(next_part(words)?)),
            CallWord::Take => Ok(Call::Take(next_part(words)?)),
            CallWord::Send => Ok(Call::Send(next(words)?)),
            CallWord::Claim => Ok(Call::Claim),
            CallWord::Answer => Ok(Call::Answer {
                slip: next(words)?,
                reply: next(words)?,
            }),
            CallWord::Shut => Ok(Call::Shut),
            CallWord::Offers => Ok(Call::Offers(read_offers(words)?)),
            CallWord::Pick => Ok(Call::Pick(next(words)?)),
            CallWord::Fetch => Ok(Call::Fetch(next_part(words)?)),
            CallWord::Block => Ok(Call::Block(next_part(words)?)),
        }
    }
}

// The part of a line before its comment.
fn uncommented(text: &str) -> &str
    ensures { result.now ≡ code_of text.now }
{
    text.split_once('#').map_or(text, |(code, _)| code)
}

// What a line says; `#` starts a comment.
pub fn read_line(text: &str) -> Result<Line<'_>, Problem<'_>>
    ensures { IfOk result (Begins (code_of text.now)) }
{
    let mut words = uncommented(text).split_whitespace();
    let Some(first) = words.next() else {
        return Ok(Line::Blank);
    };
    let line = match Word::try_from(first)? {
        Word::Setting(word) => Line::Setting(Setting::read(word, &mut words)?),
        Word::Call(word) => Line::Call(Call::read(word, &mut words)?),
    };
    end(&mut words)?;
    Ok(line)
}
