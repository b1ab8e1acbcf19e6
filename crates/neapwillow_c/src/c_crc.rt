// The two checksums for C.
ghost use Rattle.std.specs.Prelude.{◌≡◌};
ghost use Rattle.crc.specs.Crc.{crc16_of, crc32_of};

#[unsafe(no_mangle)]
pub extern "C" fn nw_crc32(s: &[u8]) -> u32
    ensures { result ≡ crc32_of s.now }
{
    neapwillow::c_crc::nw_crc32(s)
}

// In 32 bits: a compiler may count on the upper half of a narrower answer, and another leave it as it was.
#[unsafe(no_mangle)]
pub extern "C" fn nw_crc16(s: &[u8]) -> u32
    ensures { result ≡ crc16_of s.now }
{
    neapwillow::c_crc::nw_crc16(s)
}
