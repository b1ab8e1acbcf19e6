// The two checksums for C.
ghost use Rattle.std.specs.Prelude.{◌≡◌};
ghost use Rattle.crc.specs.Crc.{crc16_of, crc32_of};

pub fn nw_crc32(s: &[u8]) -> u32
    ensures { result ≡ crc32_of s.now }
{
    crc::crc32(s)
}

// In 32 bits: a compiler may count on the upper half of a narrower answer, and another leave it as it was.
pub fn nw_crc16(s: &[u8]) -> u32
    ensures { result ≡ crc16_of s.now }
{
    crc::crc16(s) as u32
}
