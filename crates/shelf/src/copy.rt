// Copying a part of a row of octets to the front of a buffer.
ghost use Rattle.std.specs.Prelude.{◌≡◌};
ghost use Rattle.site.specs.Sites.{Filled};

// Writes the octets held from the offset on, as many as both sides have, and answers how many.
pub(crate) fn copy_from(held: &[u8], offset: usize, buffer: &mut [u8]) -> usize
    ensures { Filled held.now offset buffer.old buffer.new result }
{
    if offset >= held.len() {
        return 0;
    }
    let rest = &held[offset..];
    let n = rest.len().min(buffer.len());
    buffer[..n].copy_from_slice(&rest[..n]);
    n
}
