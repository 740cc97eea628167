// An offer in a script: `PLACE:OCTETS:URGENCY`, then `:i` if it is incremental, then `:STREAM` if it has a stream of
// its own.
ghost use Rattle.std.specs.Prelude.{◌<◌, IfOk};

use crate::number::Within;
use crate::part::{end, next};
use crate::problem::Problem;
use scheduler::offer::Offer;

// The place and what it offers. Without a stream of its own, place k has stream 2k + 1.
pub fn read_offer(word: &str) -> Result<(usize, Offer), Problem<'_>>
    ensures { IfOk result (λ p. p.0 < 16) }
{
    let mut parts = word.split(':').peekable();
    let place: Within<0, 15> = next(&mut parts)?;
    let octets: Within<0, 1024> = next(&mut parts)?;
    let urgency: Within<0, 7> = next(&mut parts)?;
    let incremental = parts.next_if(|part| *part == "i").is_some();
    let stream = match parts.next() {
        Some(text) => Within::<0, 0x7fff_ffff>::try_from(text)?.value,
        None => 2 * place.value + 1,
    };
    end(&mut parts)?;
    let offer = Offer::new(
        octets.value as u16,
        urgency.value as u8,
        incremental,
        stream,
    );
    Ok((place.value as usize, offer.unwrap()))
}
