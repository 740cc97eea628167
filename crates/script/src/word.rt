// The words that a line may begin with.
use crate::problem::Problem;

#[derive(Clone, Copy)]
pub enum SettingWord {
    Scheduler,
    Site,
    Book,
    Show,
}

#[derive(Clone, Copy)]
pub enum CallWord {
    Greet,
    Take,
    Send,
    Claim,
    Answer,
    Shut,
    Offers,
    Pick,
    Fetch,
    Block,
}

#[derive(Clone, Copy)]
pub enum Word {
    Setting(SettingWord),
    Call(CallWord),
}

// The word that is spelled so.
impl<'a> TryFrom<&'a str> for Word {
    type Error = Problem<'a>;

    ghost use Rattle.script.specs.Words.{Spells, spelling};

    ghost try_from_gives = { Spells spelling };

    fn try_from(text: &'a str) -> Result<Word, Problem<'a>> {
        match text {
            "scheduler" => Ok(Word::Setting(SettingWord::Scheduler)),
            "site" => Ok(Word::Setting(SettingWord::Site)),
            "book" => Ok(Word::Setting(SettingWord::Book)),
            "show" => Ok(Word::Setting(SettingWord::Show)),
            "greet" => Ok(Word::Call(CallWord::Greet)),
            "take" => Ok(Word::Call(CallWord::Take)),
            "send" => Ok(Word::Call(CallWord::Send)),
            "claim" => Ok(Word::Call(CallWord::Claim)),
            "answer" => Ok(Word::Call(CallWord::Answer)),
            "shut" => Ok(Word::Call(CallWord::Shut)),
            "offers" => Ok(Word::Call(CallWord::Offers)),
            "pick" => Ok(Word::Call(CallWord::Pick)),
            "fetch" => Ok(Word::Call(CallWord::Fetch)),
            "block" => Ok(Word::Call(CallWord::Block)),
            _ => Err(Problem::UnknownWord(text)),
        }
    }
}
