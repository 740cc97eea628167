// Searches over the places.
ghost use Rattle.std.specs.Prelude.{◌≡◌, ℕ, ◌<◌, None, IfSome, slice_index_or, slice_set};
ghost use Rattle.state.specs.Places.{has, is_free, place_of, lowest_free, sent_of, slot_overflows, any_overflows};

use crate::place::{Place, Stage};

// The place of a stream.
pub fn place_of(places: &[Option<Place>; 16], stream: u32) -> Option<usize>
    ensures value { result ≡ place_of places.now stream }
    ensures bound { IfSome result (λ k. k < 16) }
{
    places.iter().position(|slot| slot.as_ref().is_some_and(|place| place.stream == stream))
}

// The lowest place without a stream.
pub fn lowest_free(places: &[Option<Place>; 16]) -> Option<usize>
    ensures value { result ≡ lowest_free places.now }
    ensures bound { IfSome result (λ k. k < 16) }
{
    places.iter().position(|slot| slot.is_none())
}

// How many octets of its response a place has sent.
pub fn sent(stage: Stage) -> u32
    ensures { result ≡ sent_of stage }
{
    match stage {
        Stage::Receiving(_) | Stage::Waiting(_) | Stage::Claimed => 0,
        Stage::Sending(response) => response.sent,
    }
}

// Whether a place's sending window would be above 2^31 - 1, with this setting 4.
fn overflows(place: &Place, initial: u32) -> bool
    ensures { result ≡ slot_overflows initial (Some place.now) }
{
    let window = u128::from(initial) + u128::from(place.increments);
    window > 0x7fff_ffff + u128::from(sent(place.stage))
}

// Whether any place's sending window would be above 2^31 - 1, with this setting 4.
pub fn any_overflows(places: &[Option<Place>; 16], initial: u32) -> bool
    ensures { result ≡ any_overflows initial places.now }
{
    places.iter().any(|slot| slot.as_ref().is_some_and(|place| overflows(place, initial)))
}

// What a place holds; past the last, nothing.
pub fn slot_at(places: &[Option<Place>; 16], k: usize) -> Option<Place>
    ensures { result ≡ slice_index_or places.now k None }
{
    *places.get(k)?
}

// Changes what a place holds; past the last, nothing changes. (By index: after `get_mut` the library's contract knows
// no element of the slice.)
pub fn put(places: &mut [Option<Place>; 16], k: usize, slot: Option<Place>)
    ensures { places.new ≡ slice_set places.old k slot }
{
    if k < places.len() {
        places[k] = slot;
    }
}
