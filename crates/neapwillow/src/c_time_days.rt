// Days, dates and weekdays for C.
ghost use Rattle.std.specs.Prelude.{◌≡◌};
ghost use Rattle.time_days.specs.Calendar.{day_of, date_of, weekday_of};
ghost use Rattle.c_answers.specs.Answers.{value_answer, date_answer};

pub fn nw_day_of(year: u32, month: u32, day: u32) -> u64
    ensures { result ≡ value_answer (day_of year month day) }
{
    c_answers::day_answer(time_days::day_of(year, month, day))
}

pub fn nw_date_of(day: u32) -> u64
    ensures { result ≡ date_answer (date_of day) }
{
    c_answers::date_answer(time_days::date_of(day))
}

pub fn nw_weekday(day: u32) -> u64
    ensures { result ≡ value_answer (weekday_of day) }
{
    c_answers::day_answer(time_days::weekday(day))
}
