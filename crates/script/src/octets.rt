// Octets in a script: pairs of hexadecimal digits.
ghost use Rattle.script.specs.Decoded.{Decodes};
ghost use Rattle.script.specs.Text.{word_octets};

use crate::problem::Problem;
use hex::FromHexError;
use std::alloc::Global;

// The octets that a word stands for; `-` stands for none.
#[tactic(auto, using(crate::proofs::Hex::taken, crate::proofs::Hex::refused))]
pub fn octets(heap: Global, word: &str) -> Result<Vec<u8>, Problem<'_>>
    ensures { Decodes (word_octets word.now) result }
{
    if word == "-" {
        return Ok(Vec::new(heap));
    }
    hex::decode(heap, word).map_err(|error| match error {
        FromHexError::OutOfMemory => Problem::NoMemory,
        _ => Problem::BadHex(word),
    })
}
