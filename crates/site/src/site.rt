// What every site does: it opens paths at places, and fills buffers from what a place holds.
ghost use Rattle.std.specs.Prelude.{◌≡◌, ℕ, ◌≤◌, List, [], length, Option};
ghost use Rattle.site.specs.Sites.{Bounded, Opened, Filled};

pub trait Site {
    // The octets that a path names, which no call changes.
    ghost named: { Self → List ℕ → Option (List ℕ) };

    // What a place holds.
    ghost holds: { Self → ℕ → List ℕ };

    // Makes the place hold what the path names, and answers how many octets that is. An unnamed path, and a place
    // beyond the sixteen, answer none.
    fn open(&mut self, place: usize, path: &[u8]) -> Option<u32>
        ensures { Opened named holds self.old self.new place path.now result };

    // Writes what the place holds from the offset on to the front of the buffer, and answers how many octets were
    // written.
    fn fill(&self, place: usize, offset: usize, buffer: &mut [u8]) -> usize
        ensures { Filled (holds self.now place) offset buffer.old buffer.new result };

    ghost bounded: { (s : Self) (path : List ℕ) → Bounded (named s path) };

    ghost held: { (s : Self) (place : ℕ) → length (holds s place) ≤ 2147483647 };

    ghost beyond: { (s : Self) (place : ℕ) → 16 ≤ place → holds s place ≡ [] };
}
