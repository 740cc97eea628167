// Reading what a place holds to its end, in pieces, and telling what was read.
ghost use Rattle.std.specs.Prelude.{◌≡◌, ℕ, ◌+◌, ◌%◌, ◌<◌, ◌^◌, List, [], drop, length, ◌≢◌};
ghost use Rattle.std.specs.Option.{option_map};
ghost use Rattle.site.specs.Sites.{at_place, octets_of};
ghost use Rattle.slices.specs.Surveys.{adler_step, closed, joined, survey_of, tally_of};

use site::site::Site;

// How many octets were read, the first and the last of them, and their Adler-32 checksum.
#[derive(Clone, Copy)]
pub struct Survey {
    pub count: usize,
    pub first: Option<u8>,
    pub last: Option<u8>,
    pub checksum: u32,
}

// The two sums of Adler-32 after one more octet.
fn adler_step(sums: (u16, u16), octet: u8) -> (u16, u16)
    ensures { result ≡ adler_step sums octet }
{
    let (low, high) = sums;
    let low = ((u32::from(low) + u32::from(octet)) % 65521) as u16;
    let high = ((u32::from(high) + u32::from(low)) % 65521) as u16;
    (low, high)
}

// What is known of the octets read so far: how many they are, the first, the last, and the two sums of Adler-32.
#[derive(Clone, Copy)]
struct Tally {
    count: usize,
    first: Option<u8>,
    last: Option<u8>,
    sums: (u16, u16),
}

impl Tally {
    // The tally of no octets.
    #[tactic(auto, unfolding(crate::specs::Surveys::adler_sums))]
    fn new() -> Tally
        ensures { result ≡ tally_of [] }
    {
        Tally {
            count: 0,
            first: None,
            last: None,
            sums: (1, 0),
        }
    }

    // The tally after a piece.
    fn absorb(self, piece: &[u8]) -> Tally
        requires { self.count + length piece.now < 2 ^ 64 }
        ensures { result ≡ joined self piece.now }
    {
        Tally {
            count: self.count + piece.len(),
            first: self.first.or(piece.first().copied()),
            last: piece.last().copied().or(self.last),
            sums: piece
                .iter()
                .fold(self.sums, |sums, octet| adler_step(sums, *octet)),
        }
    }

    // What is told at the end.
    fn close(self) -> Survey
        ensures { result ≡ closed self }
    {
        let (low, high) = self.sums;
        Survey {
            count: self.count,
            first: self.first,
            last: self.last,
            checksum: u32::from(high) * 65536 + u32::from(low),
        }
    }
}

// What a place holds from an offset on, read to the end in pieces of 1,024 octets.
#[tactic(auto, using(crate::proofs::Tallies::read_more))]
pub fn survey_place<S: Site>(site: &S, place: usize, offset: usize) -> Survey
    ensures { result ≡ survey_of (drop offset (S.Site.holds site.now place)) }
{
    let mut tally = Tally::new();
    let mut piece = [0u8; 1024];
    'pieces: loop {
        let n = site.fill(place, offset + tally.count, &mut piece);
        if n == 0 {
            return tally.close();
        }
        tally = tally.absorb(&piece[..n]);
    }
}

// Opens a path at a place, and tells what it names; none where it is unnamed.
pub fn fetch<S: Site>(site: &mut S, place: usize, path: &[u8]) -> Option<Survey>
    ensures value { result ≡ option_map survey_of (at_place place (S.Site.named site.old path.now)) }
    ensures here { S.Site.holds site.new place ≡ octets_of (at_place place (S.Site.named site.old path.now)) }
    ensures places { (other : ℕ) → (other ≢ place) → S.Site.holds site.new other ≡ S.Site.holds site.old other }
    ensures same { (p : List ℕ) → S.Site.named site.new p ≡ S.Site.named site.old p }
{
    site.open(place, path)?;
    Some(survey_place(site, place, 0))
}
