// A message's identifier in a body: its 35 digits and the day that eight of them are, judged in its 18 bytes themselves.
#![tactic(auto)]

ghost use Rattle.std.specs.Prelude.{◌≡◌, true, ◌+◌, ◌*◌, ◌≤◌, length, take, drop};
ghost use Rattle.time_fields.specs.Field.{worth};
ghost use Rattle.body_formats.specs.Format.{halves, tail, decimal};
ghost use Rattle.body_formats.specs.Identifier.{identifier_bytes, identifier, has_real_day};
ghost use Rattle.body_formats.specs.Answers.{field_part, digit_read};

use body_formats::{IDENTIFIER_PAIRS, Number, Part};
use ground_refusal::Refusal;

// What the two digits of a byte are worth.
fn digits_worth(byte: u8) -> u32
    ensures { (result ≡ worth byte) × (result ≤ 165) }
{
    (byte / 16 * 10 + byte % 16) as u32
}

// Whether the digits 24 to 31 of the identifier at p are a real day: its bytes 12 and 13 have the year, 14 the month, 15 the day.
pub fn has_day(s: &[u8], p: usize) -> bool
    requires { p + identifier_bytes ≤ length s.now }
    ensures { result ≡ has_real_day (tail (halves (take identifier_bytes (drop p s.now)))) }
{
    let year = digits_worth(s[p + 12]) * 100 + digits_worth(s[p + 13]);
    time_dates::is_date(year, digits_worth(s[p + 14]), digits_worth(s[p + 15]))
}

// Two bytes as one number.
fn two_bytes(high: u8, low: u8) -> u32
    ensures { result ≡ high * 256 + low }
{
    (high as u32) * 256 + (low as u32)
}

// A day, by its two digits, until which a month has every day in every year: a 29 February and a 31st are rare, and left to has_day.
fn usual_last(month: u8) -> u8
    ensures { (result ≤ 0x30) × (month ≡ 2 → result ≡ 0x28) }
{
    if month == 2 {
        return 0x28;
    }
    0x30
}

// What has_day answers, where the digits are decimal. An index may have 255 messages, so most days of 1901 to 2037 are told by comparing bytes,
// which come in the order of the numbers that their digits write; what the digits are worth is worked out for the other days alone.
pub fn has_decimal_day(s: &[u8], p: usize) -> bool
    requires { (p + identifier_bytes ≤ length s.now) × (decimal (tail (halves (take identifier_bytes (drop p s.now)))) ≡ true) }
    ensures { result ≡ has_real_day (tail (halves (take identifier_bytes (drop p s.now)))) }
{
    let year = two_bytes(s[p + 12], s[p + 13]);
    let month = s[p + 14];
    let day = s[p + 15];
    let last = usual_last(month);
    if (0x1901 <= year)
        & (year <= 0x2037)
        & (1 <= month)
        & (month <= 0x12)
        & (1 <= day)
        & (day <= last)
    {
        return true;
    }
    has_day(s, p)
}

// "4 reserved, 35 digits", and then their day.
pub fn read_identifier(s: &[u8], l: usize, p: usize) -> Part
    ensures { result ≡ field_part p (identifier.parse s.now l p) }
{
    let (a, n) = body_digits::read_digits(s, l, p, IDENTIFIER_PAIRS)?;
    if has_decimal_day(s, a) {
        return Ok((a, n));
    }
    Err(Refusal::ImpossibleDay(a))
}

// The i-th digit of the identifier at p, and the position of the byte that it stands in; 19 where there is none.
pub fn identifier_digit_at(s: &[u8], l: usize, p: usize, i: u64) -> Number
    ensures { result ≡ digit_read identifier i s.now l p }
{
    let (a, n) = read_identifier(s, l, p)?;
    body_digits::digit_of(s, a, n, i)
}
