// Ranges at the end of a path: what a path P;a-b asks of the site that names P.
ghost use Rattle.std.specs.Prelude.{◌≡◌, ℕ, ◌+◌, ◌<◌, ◌≤◌, List, length, MatchOption, Some, slice_index};
ghost use Rattle.std.specs.Option.{option_map};
ghost use Rattle.site.specs.Spans.{Finds, within};
ghost use Rattle.slices.specs.Slices.{asked_of, cut_out, range_of};
ghost use Rattle.slices.specs.Cuts.{Absent, cut_last};
ghost use Rattle.slices.specs.Views.{both_now, view_asked};

use site::digits::number;
use site::span::Span;

// The octets `first` to `last`, both among them.
#[derive(Clone, Copy)]
pub(crate) struct Range {
    first: u32,
    last: u32,
}

impl Range {
    // What the range has of `count` octets, cut at their end; none where it begins at or past their end.
    pub(crate) fn cut(self, count: u32) -> Option<Span>
        requires { count ≤ 2147483647 }
        ensures { (octets : List ℕ) → length octets ≡ count → Finds (λ s. within s octets) result (cut_out self (Some octets)) }
    {
        if self.first >= count {
            return None;
        }
        let end = self.last.saturating_add(1).min(count);
        Some(Span {
            start: self.first as usize,
            count: end.saturating_sub(self.first),
        })
    }
}

// What a path asks of the site below: all that `path` names there, or a range of it.
#[derive(Clone, Copy)]
pub(crate) struct Asked<'a> {
    pub(crate) path: &'a [u8],
    pub(crate) range: Option<Range>,
}

// Where the last octet of a text that is `mark` stands.
fn last_at(text: &[u8], mark: u8) -> Option<usize>
    ensures { MatchOption result (Absent mark text.now 0) (λ n. (n < length text.now) × (slice_index text.now n ≡ mark) × Absent mark text.now (n + 1)) }
{
    text.iter().rposition(|octet| *octet == mark)
}

// What stands before and after the last octet of a text that is `mark`.
#[tactic(auto, using(crate::proofs::Cuts::cut_nowhere))]
fn cut_last(text: &[u8], mark: u8) -> Option<(&[u8], &[u8])>
    ensures { option_map both_now result ≡ cut_last mark text.now }
{
    let n = last_at(text, mark)?;
    Some((&text[..n], &text[n + 1..]))
}

// The range that a text a-b writes, with a at most b.
fn read_range(text: &[u8]) -> Option<Range>
    ensures { result ≡ range_of text.now }
{
    let (a, b) = cut_last(text, b'-')?;
    let first = number(a)?;
    let last = number(b)?;
    (first <= last).then_some(Range { first, last })
}

// What a path asks: the last semicolon parts it. With a semicolon that no range follows it asks for nothing.
pub(crate) fn ask(path: &[u8]) -> Option<Asked<'_>>
    ensures { option_map view_asked result ≡ asked_of path.now }
{
    let Some((front, back)) = cut_last(path, b';') else {
        return Some(Asked { path, range: None });
    };
    let range = read_range(back)?;
    Some(Asked {
        path: front,
        range: Some(range),
    })
}
