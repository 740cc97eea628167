// A span of octets: where it starts, and how many there are. The default span is of no octets.
ghost use Rattle.std.specs.Prelude.{◌≡◌, ◌-◌, length, min};

#[derive(Clone, Copy, Default)]
pub struct Span {
    pub start: usize,
    pub count: u32,
}

impl Span {
    // How many octets of the span, from an offset on, fit a buffer.
    pub fn room(self, offset: usize, buffer: &[u8]) -> usize
        ensures { result ≡ min (length buffer.now) (self.count - offset) }
    {
        buffer
            .len()
            .min((self.count as usize).saturating_sub(offset))
    }
}
