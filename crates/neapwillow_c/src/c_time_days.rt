// Days, dates and weekdays for C.
ghost use Rattle.std.specs.Prelude.{◌≡◌};
ghost use Rattle.time_days.specs.Calendar.{day_of, date_of, weekday_of};
ghost use Rattle.c_answers.specs.Answers.{value_answer, date_answer};

#[unsafe(no_mangle)]
pub extern "C" fn nw_day_of(year: u32, month: u32, day: u32) -> u64
    ensures { result ≡ value_answer (day_of year month day) }
{
    neapwillow::c_time_days::nw_day_of(year, month, day)
}

#[unsafe(no_mangle)]
pub extern "C" fn nw_date_of(day: u32) -> u64
    ensures { result ≡ date_answer (date_of day) }
{
    neapwillow::c_time_days::nw_date_of(day)
}

#[unsafe(no_mangle)]
pub extern "C" fn nw_weekday(day: u32) -> u64
    ensures { result ≡ value_answer (weekday_of day) }
{
    neapwillow::c_time_days::nw_weekday(day)
}
