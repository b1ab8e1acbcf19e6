// A section on the wire: read and judged.
#![tactic(auto)]

ghost use Rattle.std.specs.Prelude.{◌≡◌, ◌+◌, ◌*◌, ◌≤◌, length};
ghost use Rattle.section_reader.specs.Section.{is_kind, fixed_bits, section_length, length_in_range, heading_of, read_section, stated_length};

use ground_numbers::{CONFIGURATION_KIND, CONTENT_KIND, SECTION_LENGTH_MOST, within};
use ground_refusal::Refusal;

// What a section says before its payload.
#[derive(Clone, Copy)]
pub struct Heading {
    // table_id: FB configuration, FC certificate, FD index, FE content.
    pub kind: u8,
    pub extension: u16,
    pub version: u16,
    pub current: bool,
    pub number: u8,
    pub last: u8,
}

// The 16 bits of two bytes.
fn word_of(high: u8, low: u8) -> u16
    ensures { result ≡ high * 256 + low }
{
    u16::from_be_bytes([high, low])
}

// Is it the table_id of one of the four tables? For later crates too.
#[tactic(auto, unfolding(crate::specs::Section::is_kind))]
pub fn is_kind(kind: u32) -> bool
    ensures { result ≡ is_kind kind }
{
    within(CONFIGURATION_KIND as u64, kind as u64, CONTENT_KIND as u64)
}

// Are the six fixed bits ones?
#[tactic(auto, unfolding(crate::specs::Section::fixed_bits))]
fn fixed_bits(s: &[u8]) -> bool
    requires { 12 ≤ length s.now }
    ensures { result ≡ fixed_bits s.now }
{
    s[1] / 16 == 15 && s[5] / 64 == 3
}

// Is it a section_length that a section may have?
fn length_in_range(length: u64) -> bool
    ensures { result ≡ length_in_range length }
{
    within(9, length, SECTION_LENGTH_MOST)
}

// The field section_length. A sum of its two bytes: by `word_of`, which the compiler turns about in 16 bits, salvaging junk took up to half as long again.
#[tactic(auto, unfolding(crate::specs::Section::section_length, crate::specs::Section::word))]
fn section_length(s: &[u8]) -> u64
    requires { 3 ≤ length s.now }
    ensures { result ≡ section_length s.now }
{
    (u64::from(s[1]) * 256 + u64::from(s[2])) % 4096
}

// The fields of the first eight bytes.
#[tactic(auto, unfolding(crate::specs::Section::heading_of, crate::specs::Section::word))]
fn heading_of(s: &[u8]) -> Heading
    requires { 12 ≤ length s.now }
    ensures { result ≡ heading_of s.now }
{
    Heading {
        kind: s[0],
        extension: word_of(s[3], s[4]),
        version: u16::from(s[5] / 2 % 32),
        current: s[5] % 2 == 1,
        number: s[6],
        last: s[7],
    }
}

// The judgement of any byte string: refusals 1 to 7, in this order. Laid into its callers, as one that salvages asks it at each byte where a section could begin.
#[inline]
#[tactic(auto, unfolding(crate::specs::Section::read_section), using(ground_numbers::proofs::Ranges::within_known))]
pub fn read_section(s: &[u8]) -> Result<(Heading, usize), Refusal>
    ensures { result ≡ read_section s.now }
{
    if s.len() < 12 {
        return Err(Refusal::SectionTooShort);
    }
    if !is_kind(u32::from(s[0])) {
        return Err(Refusal::OtherKind);
    }
    if !fixed_bits(s) {
        return Err(Refusal::FixedBitZero);
    }
    let length = section_length(s);
    if !length_in_range(length) {
        return Err(Refusal::SectionLengthOutside);
    }
    if s.len() != length as usize + 3 {
        return Err(Refusal::OtherLength);
    }
    if s[7] < s[6] {
        return Err(Refusal::NumberAboveLast);
    }
    if crc::crc32(s) != 0 {
        return Err(Refusal::CheckNotZero);
    }
    Ok((heading_of(s), s.len() - 12))
}

// The length of the section that begins a byte string, which may be cut off or go on after it; nothing else of it is judged.
#[tactic(auto, unfolding(crate::specs::Section::stated_length), using(ground_numbers::proofs::Ranges::within_known))]
pub fn stated_length(s: &[u8]) -> Result<usize, Refusal>
    ensures { result ≡ stated_length s.now }
{
    if s.len() < 3 {
        return Err(Refusal::SectionTooShort);
    }
    let length = section_length(s);
    if !length_in_range(length) {
        return Err(Refusal::SectionLengthOutside);
    }
    Ok(length as usize + 3)
}
