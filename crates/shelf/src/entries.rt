// The entries of a shelf, read one after another from the front of a row of octets.
ghost use Rattle.std.specs.Prelude.{◌≡◌, ◌≤◌, is_ok, length};
ghost use Rattle.std.specs.Iterator.{YieldsFirstBy, item_count};
ghost use Rattle.std.specs.Option.{option_map};
ghost use Rattle.shelf.specs.Shelves.{entry_of, items_of, well_formed};
ghost use Rattle.site.specs.Spans.{within};
ghost use Rattle.shelf.specs.Laws.{Lies};
ghost use Rattle.shelf.specs.Views.{view_entry, view_item};

use super::refusal::Refusal;
use site::span::Span;

// The longest path.
const LONGEST: usize = 64;

// The most octets of content.
const MOST: u32 = 2_147_483_647;

// An entry at the front of a row, and the row after it.
#[derive(Clone, Copy)]
pub(crate) struct Entry<'a> {
    pub(crate) path: &'a [u8],
    pub(crate) content: &'a [u8],
    pub(crate) rest: &'a [u8],
}

impl<'a> Entry<'a> {
    // Where in the row that it lies in its content lies.
    #[tactic(auto, using(crate::proofs::Rows::lies_within))]
    pub(crate) fn span(self, row: &[u8]) -> Span
        requires { Lies row.now (view_entry self) }
        ensures value { within result row.now ≡ self.entry.content.now }
        ensures bound { (result.count ≡ length self.entry.content.now) × (result.count ≤ 2147483647) }
    {
        Span {
            start: row.len() - self.rest.len() - self.content.len(),
            count: self.content.len() as u32,
        }
    }
}

// The entry at the front of a row.
fn read_entry(row: &[u8]) -> Option<Entry<'_>>
    ensures { option_map view_entry result ≡ entry_of row.now }
{
    let (n, back) = row.split_first()?;
    let (path, back) = back.split_at_checked(usize::from(*n))?;
    let (size, back) = back.split_first_chunk()?;
    let size = u32::from_be_bytes(*size);
    let (content, rest) = back.split_at_checked(size as usize)?;
    if path.is_empty() || path.len() > LONGEST || size > MOST {
        return None;
    }
    Some(Entry {
        path,
        content,
        rest,
    })
}

// The entries of a row. Where none can be read the refusal comes, and nothing after it.
#[derive(Clone, Copy)]
pub(crate) struct Entries<'a> {
    pub(crate) rest: &'a [u8],
}

impl<'a> Iterator for Entries<'a> {
    type Item = Result<Entry<'a>, Refusal>;

    ghost next_gives = { YieldsFirstBy view_item (λ s. items_of s.rest.now) };

    ghost remaining = { item_count (λ s. items_of s.rest.now) };

    #[tactic(auto, using(crate::proofs::Rows::items_none, crate::proofs::Rows::items_stuck))]
    fn next(&mut self) -> Option<Result<Entry<'a>, Refusal>> {
        if self.rest.is_empty() {
            return None;
        }
        let Some(entry) = read_entry(self.rest) else {
            self.rest = &[];
            return Some(Err(Refusal::MalformedShelf));
        };
        self.rest = entry.rest;
        Some(Ok(entry))
    }
}

// A row is refused unless it is made of entries from first to last.
#[tactic(auto, using(crate::proofs::Rows::formed_items))]
pub(crate) fn check(row: &[u8]) -> Result<(), Refusal>
    ensures { is_ok result ≡ well_formed row.now }
{
    for entry in (Entries { rest: row }) {
        entry?;
    }
    Ok(())
}
