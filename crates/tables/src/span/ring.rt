// What can be done with the spans of a dynamic table.
ghost use Rattle.std.specs.Prelude.{◌≡◌, ◌<◌, ◌≤◌, [], ◌∷◌, ◌++◌, length, slice_get};

use super::{Span, Spans};

impl Spans {
    pub(crate) fn new() -> Spans
        ensures { result ≡ [] }
    {
        Spans {
            slots: [Span {
                mark: 0,
                name: 0,
                value: 0,
            }; 128],
            first: 0,
            count: 0,
        }
    }

    pub(crate) fn len(&self) -> usize
        ensures value { result ≡ length self.now }
        ensures bound { result ≤ 128 }
    {
        self.count
    }

    // The span at a place, 0 the newest.
    pub(crate) fn get(&self, place: usize) -> Option<Span>
        ensures { result ≡ slice_get self.now place }
    {
        if place >= self.count {
            return None;
        }
        Some(self.slots[(self.first + (self.count - 1 - place)) % 128])
    }

    pub(crate) fn push(&mut self, span: Span)
        requires { length self.old < 128 }
        ensures { self.new ≡ span ∷ self.old }
    {
        self.slots[(self.first + self.count) % 128] = span;
        self.count += 1;
    }

    pub(crate) fn drop_oldest(&mut self) -> Span
        requires { 0 < length self.old }
        ensures { self.old ≡ self.new ++ result ∷ [] }
    {
        let span = self.slots[self.first];
        self.first = (self.first + 1) % 128;
        self.count -= 1;
        span
    }

    pub(crate) fn clear(&mut self)
        ensures { self.new ≡ [] }
    {
        self.count = 0;
    }
}
