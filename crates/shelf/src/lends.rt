// Whoever lends a row of octets: most often a slice. `AsRef` does not promise that each call lends the same octets, which a
// shelf needs.
ghost use Rattle.std.specs.Prelude.{◌≡◌, ℕ, List};

pub trait Lends {
    // The octets that are lent, which stay as they are.
    ghost lent: { Self → List ℕ };

    fn octets(&self) -> &[u8]
        ensures { result.now ≡ lent self.now };
}

impl<'a> Lends for &'a [u8] {
    ghost lent = { λ s. s.now };

    fn octets(&self) -> &[u8]
        ensures { result.now ≡ self.now.now }
    {
        self
    }
}
