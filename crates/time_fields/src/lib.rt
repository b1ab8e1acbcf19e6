// Times as the tables hold them: five-byte fields in UTC, the live end, and whether a message is before, on or ended.
#![tactic(auto)]

ghost use Rattle.std.specs.Prelude.{◌≡◌, ◌*◌, ◌^◌, ◌≤◌, ◌<◌};
ghost use Rattle.time_fields.specs.Field.{two_digits, worth, decimal_pair, is_decimal, possible, moment_of, read_time, read_end, is_instant, field_of, write_time, field_bytes, bytes_field};
ghost use Rattle.time_fields.specs.Showing.{earlier, shown_by, showing};

use ground_numbers::wide;
use ground_refusal::Refusal;

// A day by its number (MJD) and a second of it, UTC.
#[derive(Clone, Copy, PartialEq, Eq, PartialOrd, Ord)]
pub struct Moment {
    pub day: u32,
    pub second: u32,
}

// How a message stands at an instant.
#[derive(Clone, Copy)]
pub enum Showing {
    Before,
    On,
    Ended,
}

// The first number that a field of 40 bits does not hold.
const ABOVE_FIELD: u64 = 0x100_0000_0000;

// An end field of 40 one bits: the message is live.
const LIVE: u64 = 0xFF_FFFF_FFFF;

// Whether a byte holds two decimal digits.
#[tactic(auto, unfolding(crate::specs::Field::decimal_pair))]
fn decimal_pair(pair: u64) -> bool
    ensures { result ≡ decimal_pair pair }
{
    pair / 16 <= 9 && pair % 16 <= 9
}

// Whether the six digits of a field are decimal, looked at where they stand.
#[tactic(auto, unfolding(crate::specs::Field::is_decimal))]
fn decimal_digits(field: u64) -> bool
    ensures { result ≡ is_decimal field }
{
    decimal_pair(field / 0x1_0000 % 256)
        && decimal_pair(field / 256 % 256)
        && decimal_pair(field % 256)
}

// What two digits in a byte are worth.
#[tactic(auto, unfolding(crate::specs::Field::worth))]
fn pair_worth(pair: u64) -> u64
    ensures { (result ≡ worth pair) × (result ≤ pair) }
{
    pair / 16 * 10 + pair % 16
}

// Whether a field of decimal digits is a day of the range and a time of day.
#[tactic(auto, unfolding(crate::specs::Field::possible))]
fn possible_time(field: u64) -> bool
    ensures { result ≡ possible field }
{
    time_days::in_range(field / 0x100_0000)
        && pair_worth(field / 0x1_0000 % 256) <= 23
        && pair_worth(field / 256 % 256) <= 59
        && pair_worth(field % 256) <= 59
}

// The moment that a field of 40 bits holds.
#[tactic(auto, unfolding(crate::specs::Field::moment_of))]
fn moment_of(field: u64) -> Moment
    requires { field < 2 ^ 40 }
    ensures { result ≡ moment_of field }
{
    let hours = pair_worth(field / 0x1_0000 % 256);
    let minutes = pair_worth(field / 256 % 256);
    let seconds = pair_worth(field % 256);
    Moment {
        day: (field / 0x100_0000) as u32,
        second: (hours * 3600 + minutes * 60 + seconds) as u32,
    }
}

// The moment that a start field says. `at` is the place of a refusal.
#[tactic(auto, unfolding(crate::specs::Field::read_time))]
pub fn read_time(field: u64, at: usize) -> Result<Moment, Refusal>
    ensures { result ≡ read_time field at }
{
    if ABOVE_FIELD <= field {
        return Err(Refusal::OutsideSet(at));
    }
    if !decimal_digits(field) {
        return Err(Refusal::DigitAboveNine(at));
    }
    if !possible_time(field) {
        return Err(Refusal::ImpossibleDay(at));
    }
    Ok(moment_of(field))
}

// The moment that an end field says, or that the message is live. `at` is the place of a refusal.
#[tactic(auto, unfolding(crate::specs::Field::read_end))]
pub fn read_end(field: u64, at: usize) -> Result<Option<Moment>, Refusal>
    ensures { result ≡ read_end field at }
{
    if field == LIVE {
        return Ok(None);
    }
    Ok(Some(read_time(field, at)?))
}

// Whether a moment has a day of the range and a second that a day has.
#[tactic(auto, unfolding(crate::specs::Field::is_instant))]
pub fn is_instant(m: Moment) -> bool
    ensures { result ≡ is_instant m }
{
    time_days::in_range(m.day as u64) && m.second <= 86399
}

// Two decimal digits as they stand in a byte.
#[tactic(auto, unfolding(crate::specs::Field::two_digits))]
fn two_digits(n: u32) -> u64
    ensures { (result ≡ two_digits n) × (result ≤ 2 * n) }
{
    let wide = n as u64;
    wide / 10 * 16 + wide % 10
}

// The field of a moment: of 40 bits where that is an instant.
#[tactic(auto, unfolding(crate::specs::Field::field_of))]
fn field_of(m: Moment) -> u64
    ensures { result ≡ field_of m }
{
    let hours = two_digits(m.second / 3600);
    let minutes = two_digits(m.second / 60 % 60);
    let seconds = two_digits(m.second % 60);
    (m.day as u64) * 0x100_0000 + hours * 0x1_0000 + minutes * 256 + seconds
}

// A moment as a field.
#[tactic(auto, unfolding(crate::specs::Field::write_time))]
pub fn write_time(m: Moment) -> Result<u64, Refusal>
    ensures { result ≡ write_time m }
{
    if !is_instant(m) {
        return Err(Refusal::ImpossibleDay(0));
    }
    Ok(field_of(m))
}

// The five bytes of a field, the high one first; bits above 40 are left out.
#[tactic(auto, unfolding(crate::specs::Field::field_bytes))]
pub fn field_bytes(field: u64) -> [u8; 5]
    ensures { result ≡ field_bytes field }
{
    [
        (field / 0x1_0000_0000 % 256) as u8,
        (field / 0x100_0000 % 256) as u8,
        (field / 0x1_0000 % 256) as u8,
        (field / 256 % 256) as u8,
        (field % 256) as u8,
    ]
}

// The field that five bytes hold.
#[tactic(auto, unfolding(crate::specs::Field::bytes_field))]
pub fn bytes_field(bytes: [u8; 5]) -> u64
    ensures { result ≡ bytes_field bytes }
{
    wide(bytes[0]) * 0x1_0000_0000
        + wide(bytes[1]) * 0x100_0000
        + wide(bytes[2]) * 0x1_0000
        + wide(bytes[3]) * 256
        + wide(bytes[4])
}

// Whether one moment comes before another.
#[tactic(auto, unfolding(crate::specs::Showing::earlier))]
pub fn is_earlier(a: Moment, b: Moment) -> bool
    ensures { result ≡ earlier a b }
{
    a < b
}

// How a message with a good start stands at the present moment.
#[tactic(auto, unfolding(crate::specs::Showing::shown_by))]
fn shown_by(
    start: Moment,
    end: Result<Option<Moment>, Refusal>,
    present: Moment,
) -> Result<Showing, Refusal>
    ensures { result ≡ shown_by start end present }
{
    let end = end?;
    if is_earlier(present, start) {
        return Ok(Showing::Before);
    }
    match end {
        Some(e) if !is_earlier(present, e) => Ok(Showing::Ended),
        _ => Ok(Showing::On),
    }
}

// How a message with these start and end fields stands at a second of a day, both UTC.
#[tactic(auto, unfolding(crate::specs::Showing::showing, crate::specs::Showing::shown_from))]
pub fn at_instant(start: u64, end: u64, day: u32, second: u32) -> Result<Showing, Refusal>
    ensures { result ≡ showing start end (record { day = day; second = second }) }
{
    let present = Moment { day, second };
    if !is_instant(present) {
        return Err(Refusal::ImpossibleDay(0));
    }
    let from = read_time(start, 0)?;
    shown_by(from, read_end(end, 0), present)
}
