// Lenders whose octets were checked.
ghost use Rattle.std.specs.Prelude.{◌≡◌, true, is_ok, MatchResult};
ghost use Rattle.shelf.specs.Shelves.{well_formed};

use super::entries::check;
use super::lends::Lends;
use super::refusal::Refusal;

// A lender whose octets are well formed from first to last, as the holder of one knows. So does the holder of a
// `Shelf<Sound<L>>`, whatever was opened there.
#[derive(Drop)]
pub struct Sound<L: Lends> {
    lender: L,
    // The octets are well formed from first to last.
    pub ghost sound: { well_formed (L.Lends.lent lender) ≡ true },
}

impl<L: Lends + Drop> Sound<L> {
    // The lender, if its octets are well formed from first to last.
    pub fn new(lender: L) -> Result<Sound<L>, Refusal>
        ensures made { MatchResult result (λ s. s.lender ≡ lender) (λ e. e ≡ Refusal.MalformedShelf) }
        ensures test { is_ok result ≡ well_formed (L.Lends.lent lender) }
    {
        check(lender.octets())?;
        Ok(Sound { lender })
    }
}

impl<L: Lends> Lends for Sound<L> {
    ghost lent = { λ s. L.Lends.lent s.lender };

    fn octets(&self) -> &[u8]
        ensures lent { result.now ≡ L.Lends.lent self.now.lender }
        ensures formed { well_formed result.now ≡ true }
    {
        self.lender.octets()
    }
}
