// What each of sixteen places holds, as a span.
ghost use Rattle.std.specs.Prelude.{◌≡◌, ℕ, ◌<◌, ◌≤◌, None, ◌≢◌};
ghost use Rattle.std.specs.Option.{option_map, unwrap_or};
ghost use Rattle.site.specs.Spans.{HoldsNothing, capped, nothing, span_at};

use super::span::Span;

// The number of places.
pub const PLACES: usize = 16;

// The most octets that a place holds.
const MOST: u32 = 2_147_483_647;

// The spans lie in the table itself, since this crate allocates nothing.
#[derive(Clone, Copy)]
pub struct Table {
    spans: [Span; PLACES],
}

impl Table {
    // Every place holds nothing.
    pub fn new() -> Table
        ensures { HoldsNothing result.spans }
    {
        let spans = [Span::default(); PLACES];
        Table { spans }
    }

    // What a place holds; nothing beyond the sixteen places. The count is capped here, so that no table holds more.
    pub fn span_at(&self, place: usize) -> Span
        ensures { result ≡ span_at self.now.spans place }
    {
        let span = self.spans.get(place).copied().unwrap_or_default();
        Span {
            count: span.count.min(MOST),
            ..span
        }
    }

    // A place holds the span that was found, or nothing, from now on; the others stay. Answers the span's count.
    // Beyond the sixteen places it answers none, and all stays.
    pub fn hold(&mut self, place: usize, found: Option<Span>) -> Option<u32>
        ensures value { place < 16 → result ≡ option_map (λ s. s.count) found }
        ensures here { place < 16 → span_at self.new.spans place ≡ capped (unwrap_or found nothing) }
        ensures places { (other : ℕ) → (other ≢ place) → span_at self.new.spans other ≡ span_at self.old.spans other }
        ensures refused { 16 ≤ place → (result ≡ None) × (self.new ≡ self.old) }
    {
        if place >= PLACES {
            return None;
        }
        self.spans[place] = found.unwrap_or_default();
        found.map(|span| span.count)
    }
}
