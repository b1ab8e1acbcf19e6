// Local times: packed into UTC fields and unpacked from them, and read from text, day first.
#![tactic(auto)]

ghost use Rattle.std.specs.Prelude.{◌≡◌, true, ◌<◌};
ghost use Rattle.time_offset.specs.Offset.{is_offset, to_utc, to_local};
ghost use Rattle.time_local.specs.Clock.{is_clock, local_moment, written, pack_of, packed_as, dated, unpack_of};
ghost use Rattle.time_local.specs.Text.{form, fits, formed, TwoDigits, two, typed, read_text, read_as};

use ground_refusal::Refusal;
use time_fields::Moment;

// A date and a time of day, as clocks at the offset show them.
#[derive(Clone, Copy)]
pub struct LocalTime {
    pub year: u32,
    pub month: u32,
    pub day: u32,
    pub hour: u32,
    pub minute: u32,
    pub second: u32,
}

// Why a text has no UTC field at an offset. A Refusal does not stand in its place: a field that shares its bytes with one is written in pieces, and whoever
// reads it whole has to wait.
#[derive(Clone, Copy)]
enum TextFault {
    OtherOffset,
    OtherForm,
    Impossible,
}

// Whether a time of day is one: at most 23, 59, 59.
#[tactic(auto, unfolding(crate::specs::Clock::is_clock))]
fn is_clock(t: LocalTime) -> bool
    ensures { result ≡ is_clock t }
{
    t.hour <= 23 && t.minute <= 59 && t.second <= 59
}

// The moment of a local time, by local days.
#[tactic(auto, unfolding(crate::specs::Clock::local_moment, crate::specs::Clock::on_day, crate::specs::Clock::second_of))]
fn local_moment(t: LocalTime) -> Result<Moment, Refusal>
    ensures { result ≡ local_moment t }
{
    let day = time_days::day_of(t.year, t.month, t.day)?;
    if !is_clock(t) {
        return Err(Refusal::ImpossibleDay(0));
    }
    Ok(Moment {
        day,
        second: t.hour * 3600 + t.minute * 60 + t.second,
    })
}

// The UTC field of a local moment.
#[tactic(auto, unfolding(crate::specs::Clock::written))]
fn field_at(local: Moment, offset: i32) -> Result<u64, Refusal>
    ensures { result ≡ written (to_utc local offset) }
{
    time_fields::write_time(time_offset::to_utc(local, offset)?)
}

// The UTC field of a local time at an offset of the range, or none: 20 is the only refusal there, and is left out as TextFault leaves them out.
#[tactic(auto, unfolding(crate::specs::Clock::packed_as, crate::specs::Clock::pack_of, crate::specs::Clock::packed_at, crate::specs::Clock::written))]
fn packed(t: LocalTime, offset: i32) -> Option<u64>
    requires { is_offset offset ≡ true }
    ensures { packed_as result ≡ pack_of t offset }
{
    let local = local_moment(t).ok()?;
    field_at(local, offset).ok()
}

// The UTC field of a local time.
#[tactic(auto, unfolding(crate::specs::Clock::pack_of, crate::specs::Clock::packed_as))]
pub fn pack(t: LocalTime, offset: i32) -> Result<u64, Refusal>
    ensures { result ≡ pack_of t offset }
{
    if !time_offset::permitted(offset) {
        return Err(Refusal::OutsideSet(0));
    }
    packed(t, offset).ok_or(Refusal::ImpossibleDay(0))
}

// The date and the time of a local moment.
#[tactic(auto, unfolding(crate::specs::Clock::dated, crate::specs::Clock::at_second))]
fn date_at(local: Moment) -> Result<LocalTime, Refusal>
    ensures { result ≡ dated (Ok local) }
{
    let date = time_days::date_of(local.day)?;
    Ok(LocalTime {
        year: date.year,
        month: date.month,
        day: date.day,
        hour: local.second / 3600,
        minute: local.second / 60 % 60,
        second: local.second % 60,
    })
}

// The local time of a UTC moment.
#[tactic(auto, unfolding(crate::specs::Clock::dated))]
fn local_at(utc: Moment, offset: i32) -> Result<LocalTime, Refusal>
    ensures { result ≡ dated (to_local utc offset) }
{
    date_at(time_offset::to_local(utc, offset)?)
}

// The local time that a UTC field says.
#[tactic(auto, unfolding(crate::specs::Clock::unpack_of, crate::specs::Clock::unpacked_at))]
pub fn unpack(field: u64, offset: i32) -> Result<LocalTime, Refusal>
    ensures { result ≡ unpack_of field offset }
{
    if !time_offset::permitted(offset) {
        return Err(Refusal::OutsideSet(0));
    }
    local_at(time_fields::read_time(field, 0)?, offset)
}

// Whether a byte is what the form has in its place: any digit for a 0, else the form's own byte.
#[tactic(auto, unfolding(crate::specs::Text::fits))]
fn fitting(form: u8, byte: u8) -> bool
    ensures { result ≡ fits form byte }
{
    if form == b'0' {
        return ground_numbers::is_digit(byte);
    }
    byte == form
}

// Whether a text has the length of a form, and fits it byte by byte.
fn of_form(form: &[u8], text: &[u8]) -> bool
    ensures { result ≡ formed form.now text.now }
{
    if form.len() != text.len() {
        return false;
    }
    for (i, f) in form.iter().enumerate() {
        if !fitting(*f, text[i]) {
            return false;
        }
    }
    true
}

// What two digits of a text are worth.
#[tactic(auto, unfolding(crate::specs::Text::two))]
fn number_at(text: &[u8], i: usize) -> u32
    requires { TwoDigits text.now i }
    ensures { (result ≡ two text.now i) × (result < 100) }
{
    ((text[i] - b'0') as u32) * 10 + ((text[i + 1] - b'0') as u32)
}

// The local time of a text of the form: day first.
#[tactic(auto, unfolding(crate::specs::Text::typed))]
fn time_of(text: &[u8]) -> LocalTime
    requires { formed form text.now ≡ true }
    ensures { result ≡ typed text.now }
{
    LocalTime {
        day: number_at(text, 0),
        month: number_at(text, 3),
        year: number_at(text, 6) * 100 + number_at(text, 8),
        hour: number_at(text, 11),
        minute: number_at(text, 14),
        second: number_at(text, 17),
    }
}

// The UTC field of a local time in text: the offset is tested, then the form, then the day and the time.
#[tactic(auto, unfolding(crate::specs::Text::read_as, crate::specs::Text::read_text, crate::specs::Text::form, crate::specs::Clock::packed_as))]
fn text_field(text: &[u8], offset: i32) -> Result<u64, TextFault>
    ensures { read_as result ≡ read_text text.now offset }
{
    if !time_offset::permitted(offset) {
        return Err(TextFault::OtherOffset);
    }
    if !of_form(b"00/00/0000 00:00:00", text) {
        return Err(TextFault::OtherForm);
    }
    packed(time_of(text), offset).ok_or(TextFault::Impossible)
}

// The UTC field of a local time in text, `dd/mm/yyyy hh:mm:ss`.
#[tactic(auto, unfolding(crate::specs::Text::read_as))]
pub fn read_text(text: &[u8], offset: i32) -> Result<u64, Refusal>
    ensures { result ≡ read_text text.now offset }
{
    text_field(text, offset).map_err(|fault| match fault {
        TextFault::OtherOffset => Refusal::OutsideSet(0),
        TextFault::OtherForm => Refusal::NotOfTheForm,
        TextFault::Impossible => Refusal::ImpossibleDay(0),
    })
}
