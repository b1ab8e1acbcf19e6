// Time fields, local times and the instant for C.
ghost use Rattle.std.specs.Prelude.{◌≡◌};
ghost use Rattle.time_fields.specs.Showing.{showing};
ghost use Rattle.time_local.specs.Clock.{pack_of, unpack_of};
ghost use Rattle.time_local.specs.Text.{read_text};
ghost use Rattle.c_answers.specs.Answers.{value_answer, local_answer, showing_answer};

use time_local::LocalTime;

pub fn nw_time_pack(
    year: u32,
    month: u32,
    day: u32,
    hour: u32,
    minute: u32,
    second: u32,
    offset: i32,
) -> u64
    ensures { result ≡ value_answer (pack_of (record { year = year; month = month; day = day; hour = hour; minute = minute; second = second }) offset) }
{
    c_answers::value_answer(time_local::pack(
        LocalTime {
            year,
            month,
            day,
            hour,
            minute,
            second,
        },
        offset,
    ))
}

pub fn nw_time_read_text(text: &[u8], offset: i32) -> u64
    ensures { result ≡ value_answer (read_text text.now offset) }
{
    c_answers::value_answer(time_local::read_text(text, offset))
}

pub fn nw_time_unpack(field: u64, offset: i32) -> u64
    ensures { result ≡ local_answer (unpack_of field offset) }
{
    c_answers::local_answer(time_local::unpack(field, offset))
}

pub fn nw_time_showing(start: u64, end: u64, day: u32, second: u32) -> u64
    ensures { result ≡ showing_answer (showing start end (record { day = day; second = second })) }
{
    c_answers::showing_answer(time_fields::at_instant(start, end, day, second))
}
