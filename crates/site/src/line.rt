// The line test: a site that names /line/N for each N up to a million.
ghost use Rattle.std.specs.Prelude.{◌≡◌, ℕ, ◌+◌, ◌%◌, ◌^◌, ◌<◌, ◌≤◌, length, IfSome};
ghost use Rattle.site.specs.Sites.{Filled, Opened};
ghost use Rattle.site.specs.Spans.{Finds, HoldsNothing};
ghost use Rattle.site.specs.Lines.{line_from, line_held, line_length, line_named, line_of};
ghost use Rattle.site.specs.Laws.{line_bounded, line_held_beyond, line_held_short};

use super::digits::number;
use super::site::Site;
use super::span::Span;
use super::table::Table;

// The longest line.
const LONGEST: u32 = 1_000_000;

#[derive(Clone, Copy)]
pub struct LineTest {
    table: Table,
}

impl LineTest {
    // A line test whose places hold nothing.
    pub fn new() -> LineTest
        ensures { HoldsNothing result.table.spans }
    {
        let table = Table::new();
        LineTest { table }
    }
}

// The N of a path /line/N.
fn line_length(path: &[u8]) -> Option<u32>
    ensures value { result ≡ line_length path.now }
    ensures bound { IfSome result (λ n. n ≤ 1000000) }
{
    number(path.strip_prefix(b"/line/")?).filter(|n| *n <= LONGEST)
}

// The span of the line that a path names.
#[tactic(auto, using(crate::specs::Laws::length_line))]
fn line_span(path: &[u8]) -> Option<Span>
    ensures { Finds line_of result (line_named path.now) }
{
    let count = line_length(path)?;
    Some(Span { start: 0, count })
}

// The octet of the line at an offset.
fn line_octet(offset: usize) -> u8
    ensures { result ≡ offset % 251 }
{
    (offset % 251) as u8
}

// Writes the octets of the line from the offset on.
#[tactic(auto, using(crate::proofs::Liner::line_is))]
fn write_line(offset: usize, buffer: &mut [u8])
    requires { offset + length buffer.old < 2 ^ 64 }
    ensures { buffer.new ≡ line_from offset (length buffer.old) }
{
    for (i, octet) in buffer.iter_mut().enumerate() {
        *octet = line_octet(offset + i);
    }
}

impl Site for LineTest {
    ghost named = { λ s. line_named };

    ghost holds = { λ s. line_held s.table.spans };

    ghost bounded = { λ s path. line_bounded path };

    ghost held = { λ s place. line_held_short s.table.spans place };

    ghost beyond = { λ s place high. line_held_beyond s.table.spans place high };

    fn open(&mut self, place: usize, path: &[u8]) -> Option<u32> {
        self.table.hold(place, line_span(path))
    }

    fn fill(&self, place: usize, offset: usize, buffer: &mut [u8]) -> usize {
        let n = self.table.span_at(place).room(offset, buffer);
        write_line(offset, &mut buffer[..n]);
        n
    }
}
