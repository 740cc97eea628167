// Numbers as octets, the highest octet first.
ghost use Rattle.std.specs.Prelude.{◌≡◌, slice_index};
ghost use Rattle.frame_header.specs.Octets.{number31_of};

// 31 bits after one ignored bit.
pub fn be31(octets: [u8; 4]) -> u32
    ensures { result ≡ number31_of octets }
{
    u32::from_be_bytes(octets) % 0x8000_0000
}
