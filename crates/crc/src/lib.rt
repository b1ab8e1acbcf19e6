// CRC_32 and CRC-16 of a string of bytes, and CRC-16 without its first four bits, by tables: a lookup takes in several bits, and a turn makes
// several lookups.
//
// A table is a `static`, which stays where it is; a `const` array is laid out anew by every call that names it.
#![tactic(auto)]

mod nibbles16;

ghost use Rattle.std.specs.Prelude.{false, [], ◌∷◌, ◌++◌, ◌≡◌, length, replicate, ◌≤◌};
ghost use Rattle.crc_register.specs.Register.{bits_of, bytes_bits, crc};
ghost use Rattle.crc.specs.Crc.{crc16_after_four, crc16_of, crc32_of};
ghost use Rattle.crc.specs.Lanes.{Read};

// Four bytes as one number, the first the highest.
fn joined(a: u8, b: u8, c: u8, d: u8) -> u32
    ensures { bits_of 32 result ≡ bytes_bits (a ∷ b ∷ c ∷ d ∷ []) }
{
    (a as u32) * 16777216 + ((b as u32) * 65536 + ((c as u32) * 256 + (d as u32)))
}

// A string of four bytes as one number.
fn word(s: &[u8]) -> u32
    requires { length s.now ≡ 4 }
    ensures { bits_of 32 result ≡ bytes_bits s.now }
{
    joined(s[0], s[1], s[2], s[3])
}

// The register after one byte.
fn byte32(reg: u32, b: u8) -> u32
    ensures { result ≡ crc 32 0x04C11DB7 reg (bits_of 8 b) }
{
    crc_table_second_word::entry::<0>((reg >> 24) ^ (b as u32)) ^ (reg << 8)
}

// The register after the bytes of s, one a turn.
fn by_bytes(reg: u32, s: &[u8]) -> u32
    ensures { result ≡ crc 32 0x04C11DB7 reg (bytes_bits s.now) }
{
    let mut r = reg;
    for b in s {
        r = byte32(r, *b);
    }
    r
}

// The register, from zero, after the 32 bits of x and 96 zeros.
fn first_far(x: u32) -> u32
    ensures { result ≡ crc 32 0x04C11DB7 0 (bits_of 32 x ++ replicate 96 false) }
{
    crc_table_first_far::entry::<3>(x / 16777216)
        ^ (crc_table_first_far::entry::<2>(x / 65536)
            ^ (crc_table_first_far::entry::<1>(x / 256) ^ crc_table_first_far::entry::<0>(x)))
}

// The register, from zero, after the 32 bits of x and 64 zeros.
fn second_far(x: u32) -> u32
    ensures { result ≡ crc 32 0x04C11DB7 0 (bits_of 32 x ++ replicate 64 false) }
{
    crc_table_second_far::entry::<3>(x / 16777216)
        ^ (crc_table_second_far::entry::<2>(x / 65536)
            ^ (crc_table_second_far::entry::<1>(x / 256) ^ crc_table_second_far::entry::<0>(x)))
}

// The register, from zero, after the 32 bits of x.
fn near(x: u32) -> u32
    ensures { result ≡ crc 32 0x04C11DB7 0 (bits_of 32 x) }
{
    crc_table_second_word::entry::<3>(x / 16777216)
        ^ (crc_table_second_word::entry::<2>(x / 65536)
            ^ (crc_table_second_word::entry::<1>(x / 256) ^ crc_table_second_word::entry::<0>(x)))
}

// What two lanes leave: the place that they have come to, what goes in with the next word, and what is added two words on.
#[derive(Clone, Copy)]
struct Lanes {
    at: usize,
    next: u32,
    later: u32,
}

// Two lanes, eight bytes a turn while sixteen are left: the words of a turn go in by their tables with eight bytes to follow, and what they
// come to waits for a turn, so that no lookup waits for the turn before. The lanes change places each turn: every table has one lookup.
//
// The second word comes first: its lookups wait for nothing, and the compiler adds them up in the order of the code.
// The index is counted by hand: a turn asks for sixteen bytes and takes eight, which is not how std's chunks go.
fn two_lanes(s: &[u8]) -> Lanes
    ensures { (result.at ≤ length s.now) × Read 0x04C11DB7 0xFFFFFFFF s.now result.at result.next 0 result.later }
{
    let mut next: u32 = 0xFFFFFFFF;
    let mut later: u32 = 0;
    let mut i: usize = 0;
    while 16 <= s.len() - i {
        let waits = second_far(word(&s[i + 4..i + 8])) ^ first_far(next ^ word(&s[i..i + 4]));
        next = later;
        later = waits;
        i += 8;
    }
    Lanes { at: i, next, later }
}

// CRC_32 of s: two lanes as far as they go; then four bytes a turn, which brings them together; then the last bytes.
//
// Only parts of s are lent: with s itself lent the compiler takes its address and length from memory, and every caller puts them there.
pub fn crc32(s: &[u8]) -> u32
    ensures { result ≡ crc32_of s.now }
{
    let lanes = two_lanes(&s[0..]);
    let mut i = lanes.at;
    let mut next = lanes.next;
    let mut after: u32 = 0;
    let mut later = lanes.later;
    while 4 <= s.len() - i {
        next = after ^ near(next ^ word(&s[i..i + 4]));
        after = later;
        later = 0;
        i += 4;
    }
    by_bytes(next, &s[i..])
}

// The register after the four low bits of x.
fn nibble16(reg: u16, x: u8) -> u16
    ensures { result ≡ crc 16 0x1021 reg (bits_of 4 x) }
{
    nibbles16::entry::<0>((reg >> 12) ^ (x as u16)) ^ (reg << 4)
}

// The register after the bytes of s, two lookups to a byte.
fn by_nibbles(reg: u16, s: &[u8]) -> u16
    ensures { result ≡ crc 16 0x1021 reg (bytes_bits s.now) }
{
    let mut r = reg;
    for b in s {
        r = nibble16(nibble16(r, *b / 16), *b);
    }
    r
}

// Two bytes as one number, the first the higher.
fn pair(a: u8, b: u8) -> u16
    ensures { bits_of 16 result ≡ bytes_bits (a ∷ b ∷ []) }
{
    (a as u16) * 256 + (b as u16)
}

// CRC-16's register, from zero, after the 16 bits of x and 16 zeros.
fn far16(x: u16) -> u16
    ensures { result ≡ crc 16 0x1021 0 (bits_of 16 x ++ replicate 16 false) }
{
    nibbles16::entry::<7>(x / 4096)
        ^ (nibbles16::entry::<6>(x / 256)
            ^ (nibbles16::entry::<5>(x / 16) ^ nibbles16::entry::<4>(x)))
}

// CRC-16's register, from zero, after the 16 bits of x.
fn near16(x: u16) -> u16
    ensures { result ≡ crc 16 0x1021 0 (bits_of 16 x) }
{
    nibbles16::entry::<3>(x / 4096)
        ^ (nibbles16::entry::<2>(x / 256)
            ^ (nibbles16::entry::<1>(x / 16) ^ nibbles16::entry::<0>(x)))
}

// The register after the bytes of s, four a turn, of which only the first two wait for the turn before; then the last bytes.
fn by_fours(reg: u16, s: &[u8]) -> u16
    ensures { result ≡ crc 16 0x1021 reg (bytes_bits s.now) }
{
    let mut r = reg;
    let mut i: usize = 0;
    while 4 <= s.len() - i {
        r = near16(pair(s[i + 2], s[i + 3])) ^ far16(r ^ pair(s[i], s[i + 1]));
        i += 4;
    }
    by_nibbles(r, &s[i..])
}

// CRC-16 of s.
pub fn crc16(s: &[u8]) -> u16
    ensures { result ≡ crc16_of s.now }
{
    by_fours(0xFFFF, &s[0..])
}

// CRC-16 of the bits of s without the first four: the low half of its first byte, and the bytes after that. Of no byte no bit is left.
pub fn crc16_after_four(s: &[u8]) -> u16
    ensures { result ≡ crc16_after_four s.now }
{
    if s.len() == 0 {
        return 0xFFFF;
    }
    by_fours(nibble16(0xFFFF, s[0]), &s[1..])
}
