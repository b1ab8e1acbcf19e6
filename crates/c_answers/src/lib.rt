// How each answer of the library becomes one number for C: the refusal's number in the low byte, and above it its place or the value.
// The library's version too, as one number.
#![tactic(auto)]

ghost use Rattle.std.specs.Prelude.{◌≡◌, ◌+◌, ◌*◌, ◌%◌, ◌^◌, ◌<◌};
ghost use Rattle.crc.specs.Crc.{digit};
ghost use Rattle.c_answers.specs.Packing.{packed};
ghost use Rattle.c_answers.specs.Version.{version};
ghost use Rattle.c_answers.specs.Answers.{answer_of, refused_of, value_answer, read_answer, date_fields, date_answer, time_fields, local_answer, showing_answer, times_answer, fields_after, heading_fields, section_answer, salvaged_answer, feed_answer, number_answer, part_answer, content_answer, local_field_answer};

use body_formats::{Number, Part, Step};
use gathering_feed::Answer;
use ground_refusal::Refusal;
use section_reader::Heading;
use time_days::Date;
use time_fields::Showing;
use time_local::LocalTime;

// What an answer holds above its low byte: 56 bits.
const ABOVE: u64 = 0x0100_0000_0000_0000;

// A refusal as C is told of it.
pub fn refused(r: Refusal) -> u64
    ensures { result ≡ refused_of r }
{
    (ground_refusal::number(r) as u64) + 256 * ((ground_refusal::place(r) as u64) % ABOVE)
}

// A value as C is told of it: no refusal, and the value above the low byte.
pub fn answered(value: u64) -> u64
    ensures { result ≡ answer_of 0 value }
{
    256 * (value % ABOVE)
}

// The three numbers of the file VERSION.
const MAJOR: u32 = 0;

const MINOR: u32 = 2;

const PATCH: u32 = 0;

#[tactic(auto, unfolding(crate::specs::Version::version, crate::specs::Version::version_number))]
pub fn version() -> u32
    ensures { result ≡ version }
{
    MAJOR * 10_000 + MINOR * 100 + PATCH
}

// A value, or the refusal. Beside it stand two for the other widths: `usize` is no `Into<u64>`, and `From` of an answer is another crate's.
pub fn value_answer(a: Result<u64, Refusal>) -> u64
    ensures { result ≡ value_answer a }
{
    match a {
        Ok(value) => answered(value),
        Err(why) => refused(why),
    }
}

// How long or how many, or the refusal.
pub fn length_answer(a: Result<usize, Refusal>) -> u64
    ensures { result ≡ value_answer a }
{
    value_answer(a.map(|n| n as u64))
}

// A day or a weekday, or the refusal.
pub fn day_answer(a: Result<u32, Refusal>) -> u64
    ensures { result ≡ value_answer a }
{
    value_answer(a.map(u64::from))
}

// What reading a body answers: nothing more where it is accepted.
pub fn read_answer(s: Step) -> u64
    ensures { result ≡ read_answer s }
{
    value_answer(s.map(|_end| 0))
}

// A date as one number, a byte for each part but two for the year. No `From`, here and below: both types are another crate's.
#[tactic(auto, unfolding(crate::specs::Packing::packed, crate::specs::Packing::widths, crate::specs::Answers::date_fields))]
fn packed_date(d: Date) -> u64
    ensures { result ≡ packed (date_fields d) }
{
    (d.year % 65536) as u64 * 0x1_0000 + (d.month % 256) as u64 * 0x100 + (d.day % 256) as u64
}

pub fn date_answer(a: Result<Date, Refusal>) -> u64
    ensures { result ≡ date_answer a }
{
    value_answer(a.map(packed_date))
}

// A local time as one number, a byte for each part but two for the year.
#[tactic(auto, unfolding(crate::specs::Packing::packed, crate::specs::Packing::widths, crate::specs::Answers::time_fields))]
fn packed_time(t: LocalTime) -> u64
    ensures { result ≡ packed (time_fields t) }
{
    (t.year % 65536) as u64 * 0x100_0000_0000
        + (t.month % 256) as u64 * 0x1_0000_0000
        + (t.day % 256) as u64 * 0x100_0000
        + (t.hour % 256) as u64 * 0x1_0000
        + (t.minute % 256) as u64 * 0x100
        + (t.second % 256) as u64
}

pub fn local_answer(a: Result<LocalTime, Refusal>) -> u64
    ensures { result ≡ local_answer a }
{
    value_answer(a.map(packed_time))
}

pub fn showing_answer(a: Result<Showing, Refusal>) -> u64
    ensures { result ≡ showing_answer a }
{
    match a {
        Ok(Showing::Before) => answered(0),
        Ok(Showing::On) => answered(1),
        Ok(Showing::Ended) => answered(2),
        Err(why) => refused(why),
    }
}

// Two fields do not fit one answer: they are left in the numbers lent, which stay where they are refused.
pub fn times_answer(a: Result<(u64, u64), Refusal>, fields: &mut [u64; 2]) -> u64
    ensures value { result ≡ times_answer a }
    ensures fields_after { fields.new ≡ fields_after a fields.old }
{
    match a {
        Ok((start, end)) => {
            *fields = [start, end];
            answered(0)
        }
        Err(why) => refused(why),
    }
}

// A heading as one number, a byte for each field but two for the extension.
#[tactic(auto, unfolding(crate::specs::Packing::packed, crate::specs::Packing::widths, crate::specs::Answers::heading_fields, crc::specs::Crc::digit))]
fn packed_heading(h: Heading) -> u64
    ensures { result ≡ packed (heading_fields h) }
{
    (h.kind as u64) * 0x1_0000_0000_0000
        + (h.extension as u64) * 0x1_0000_0000
        + (h.version % 256) as u64 * 0x100_0000
        + u64::from(h.current) * 0x1_0000
        + (h.number as u64) * 0x100
        + (h.last as u64)
}

pub fn section_answer(a: Result<(Heading, usize), Refusal>) -> u64
    ensures { result ≡ section_answer a }
{
    value_answer(a.map(|(h, _length)| packed_heading(h)))
}

// Two numbers as one, the second in the low three bytes.
fn above(high: u64, low: usize) -> u64
    requires { high < 2 ^ 32 }
    ensures { result ≡ high * 2 ^ 24 + low % 2 ^ 24 }
{
    high * 0x100_0000 + (low as u64) % 0x100_0000
}

// What salvaging answers: the runs above the bytes.
#[tactic(auto, using(crate::proofs::Packing::packed_two))]
pub fn salvaged_answer(a: Result<(usize, usize), Refusal>) -> u64
    ensures { result ≡ salvaged_answer a }
{
    value_answer(a.map(|(bytes, runs)| above((runs as u64) % 0x100_0000, bytes)))
}

pub fn feed_answer(a: Result<Answer, Refusal>) -> u64
    ensures { result ≡ feed_answer a }
{
    match a {
        Ok(Answer::Taken) => answered(0),
        Ok(Answer::HeldAlready) => answered(1),
        Err(why) => refused(why),
    }
}

pub fn number_answer(n: Number) -> u64
    ensures { result ≡ number_answer n }
{
    value_answer(n.map(|(x, _after)| x))
}

// The part of a body that opaque bytes fill: its start above its length.
#[tactic(auto, using(crate::proofs::Packing::packed_two))]
pub fn part_answer(p: Part) -> u64
    ensures { result ≡ part_answer p }
{
    value_answer(p.map(|(start, length)| above((start as u64) % 0x1_0000_0000, length)))
}

// What writing a content table answers: the extension above the length.
#[tactic(auto, using(crate::proofs::Packing::packed_two))]
pub fn content_answer(a: Result<(usize, u32), Refusal>) -> u64
    ensures { result ≡ content_answer a }
{
    value_answer(a.map(|(length, extension)| above((extension as u64) % 0x1_0000, length)))
}

// The local time of a time field that was asked for: the offset is judged before the field's own refusal is told.
#[tactic(auto, unfolding(crate::specs::Answers::local_field_answer), using(time_offset::proofs::Moving::offset_tested))]
pub fn local_field_answer(field: Number, offset: i32) -> u64
    ensures { result ≡ local_field_answer offset field }
{
    if !time_offset::permitted(offset) {
        return refused(Refusal::OutsideSet(0));
    }
    local_answer(field.and_then(|(f, _after)| time_local::unpack(f, offset)))
}
