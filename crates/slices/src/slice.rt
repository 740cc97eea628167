// Slices: a site above any other, which also names parts of what that one names.
ghost use Rattle.std.specs.Prelude.{◌≡◌, ℕ, ◌≤◌, List, ◌≢◌};
ghost use Rattle.slices.specs.Slices.{slice_held, slice_named};
ghost use Rattle.site.specs.Sites.{at_place};
ghost use Rattle.site.specs.Spans.{Finds, HoldsNothing, within};
ghost use Rattle.slices.specs.Laws.{slice_bounded, slice_held_beyond, slice_held_short};

use super::range::ask;
use site::site::Site;
use site::span::Span;
use site::table::{PLACES, Table};

#[derive(Drop)]
pub struct Slice<S> {
    below: S,
    ranges: Table,
}

impl<S> Slice<S> {
    // A slice of a site, whose places hold nothing.
    pub fn new(below: S) -> Slice<S>
        ensures same { result.below ≡ below }
        ensures places { HoldsNothing result.ranges.spans }
    {
        let ranges = Table::new();
        Slice { below, ranges }
    }
}

// Opens in the site below what the path asks of it, and finds the range of that which the path names.
#[tactic(auto, using(crate::proofs::Sliced::counted))]
fn find<S: Site>(below: &mut S, place: usize, path: &[u8]) -> Option<Span>
    ensures found { Finds (λ s. within s (S.Site.holds below.new place)) result (at_place place (slice_named (S.Site.named below.old) path.now)) }
    ensures places { (other : ℕ) → (other ≢ place) → S.Site.holds below.new other ≡ S.Site.holds below.old other }
    ensures same { (p : List ℕ) → S.Site.named below.new p ≡ S.Site.named below.old p }
    ensures refused { 16 ≤ place → below.new ≡ below.old }
{
    let asked = ask(path)?;
    let count = below.open(place, asked.path)?;
    match asked.range {
        None => Some(Span { start: 0, count }),
        Some(range) => range.cut(count),
    }
}

impl<S: Site> Site for Slice<S> {
    ghost named = { λ s. slice_named (S.Site.named s.below) };

    ghost holds = { λ s. slice_held (S.Site.holds s.below) s.ranges.spans };

    ghost bounded = { λ s path. slice_bounded (S.Site.named s.below) path (S.Site.bounded s.below) };

    ghost held = { λ s place. slice_held_short (S.Site.holds s.below) s.ranges.spans place };

    ghost beyond = { λ s place high. slice_held_beyond (S.Site.holds s.below) s.ranges.spans place high };

    fn open(&mut self, place: usize, path: &[u8]) -> Option<u32> {
        if place >= PLACES {
            return None;
        }
        let found = find(&mut self.below, place, path);
        self.ranges.hold(place, found)
    }

    fn fill(&self, place: usize, offset: usize, buffer: &mut [u8]) -> usize {
        let range = self.ranges.span_at(place);
        let n = range.room(offset, buffer);
        if n == 0 {
            return 0;
        }
        self.below.fill(place, range.start.saturating_add(offset), &mut buffer[..n])
    }
}
