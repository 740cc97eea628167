// The shelf: a site over a row of lent octets that is made of entries, each a path with its content.
ghost use Rattle.std.specs.Prelude.{◌≡◌, ℕ, [], is_ok, MatchResult};
ghost use Rattle.shelf.specs.Shelves.{shelf_held, shelf_named, well_formed};
ghost use Rattle.site.specs.Spans.{Finds, within};
ghost use Rattle.shelf.specs.Laws.{shelf_bounded, shelf_held_beyond, shelf_held_short};

use super::copy::copy_from;
use super::entries::{Entries, check};
use super::lends::Lends;
use super::refusal::Refusal;
use super::sound::Sound;
use site::site::Site;
use site::span::Span;
use site::table::Table;

// A shelf over a lender of octets, as `Shelf<&[u8]>`. The octets are well formed: only `new` and `over` make a shelf.
#[derive(Drop)]
pub struct Shelf<L> {
    lender: L,
    table: Table,
}

// Where in a row the content of the first entry with a path lies.
#[tactic(auto, using(crate::proofs::Rows::met, crate::proofs::Rows::next_lies, crate::proofs::Rows::passed))]
fn find(row: &[u8], path: &[u8]) -> Option<Span>
    ensures { Finds (λ s. within s row.now) result (shelf_named row.now path.now) }
{
    for entry in (Entries { rest: row }) {
        let entry = entry.ok()?;
        if entry.path == path {
            return Some(entry.span(row));
        }
    }
    None
}

// The octets of a span of a row, cut at the row's end.
fn part(row: &[u8], span: Span) -> &[u8]
    ensures { result.now ≡ within span row.now }
{
    let rest = row.get(span.start..).unwrap_or_default();
    &rest[..rest.len().min(span.count as usize)]
}

impl<L: Lends + Drop> Shelf<L> {
    // A shelf over lent octets, if they are well formed from first to last. Its places hold nothing.
    pub fn new(lender: L) -> Result<Shelf<L>, Refusal>
        ensures made { MatchResult result (λ s. (s.lender ≡ lender) × ((place : ℕ) → shelf_held (L.Lends.lent lender) s.table.spans place ≡ [])) (λ e. e ≡ Refusal.MalformedShelf) }
        ensures test { is_ok result ≡ well_formed (L.Lends.lent lender) }
    {
        check(lender.octets())?;
        let table = Table::new();
        Ok(Shelf { lender, table })
    }
}

impl<L: Lends + Drop> Shelf<Sound<L>> {
    // A shelf over octets that were found well formed before, so that nothing is refused. Its places hold nothing.
    pub fn over(lender: Sound<L>) -> Shelf<Sound<L>>
        ensures lender { result.lender ≡ lender }
        ensures empty { (place : ℕ) → shelf_held (L.Lends.lent lender.lender) result.table.spans place ≡ [] }
    {
        Shelf {
            lender,
            table: Table::new(),
        }
    }
}

impl<L: Lends> Site for Shelf<L> {
    ghost named = { λ s. shelf_named (L.Lends.lent s.lender) };

    ghost holds = { λ s. shelf_held (L.Lends.lent s.lender) s.table.spans };

    ghost bounded = { λ s path. shelf_bounded (L.Lends.lent s.lender) path };

    ghost held = { λ s place. shelf_held_short (L.Lends.lent s.lender) s.table.spans place };

    ghost beyond = { λ s place high. shelf_held_beyond (L.Lends.lent s.lender) s.table.spans place high };

    fn open(&mut self, place: usize, path: &[u8]) -> Option<u32> {
        let found = find(self.lender.octets(), path);
        self.table.hold(place, found)
    }

    fn fill(&self, place: usize, offset: usize, buffer: &mut [u8]) -> usize {
        let held = part(self.lender.octets(), self.table.span_at(place));
        copy_from(held, offset, buffer)
    }
}
