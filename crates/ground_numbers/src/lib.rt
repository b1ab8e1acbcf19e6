// Document 01's numbers that code and definitions share, and the small functions on bytes and numbers that many crates need.
#![tactic(auto)]

ghost use Rattle.std.specs.Prelude.{◌≡◌, ◌&&◌, ◌-◌, ◌<◌, min, leb};
ghost use Rattle.ground_numbers.specs.Characters.{is_digit};

// ---- the numbers, as specs/Sizes.antt has them

// table_id of each table.
pub const CONFIGURATION_KIND: u32 = 0xFB;

pub const CERTIFICATE_KIND: u32 = 0xFC;

pub const INDEX_KIND: u32 = 0xFD;

pub const CONTENT_KIND: u32 = 0xFE;

// The most bytes of a section's payload, and of a body.
pub const PAYLOAD_MOST: usize = 4084;

pub const BODY_MOST: usize = 1045504;

// The greatest section_length, and the greatest version.
pub const SECTION_LENGTH_MOST: u64 = 4093;

pub const VERSION_MOST: u32 = 31;

// ---- bytes

// A byte as a number that has room to grow.
pub fn wide(byte: u8) -> u64
    ensures { (result ≡ byte) × (result < 256) }
{
    byte as u64
}

// Is it one of '0' to '9'?
pub fn is_digit(byte: u8) -> bool
    ensures { result ≡ is_digit byte }
{
    byte.is_ascii_digit()
}

// ---- numbers

// Is n one of low to high?
pub fn within(low: u64, n: u64, high: u64) -> bool
    ensures { result ≡ (leb low n && leb n high) }
{
    low <= n && n <= high
}

// What is left of a without b, and 0 where b is more.
pub fn less(a: usize, b: usize) -> usize
    ensures { result ≡ a - b }
{
    a.saturating_sub(b)
}

// The smaller of two.
pub fn least(a: usize, b: usize) -> usize
    ensures { result ≡ min a b }
{
    a.min(b)
}
