// The clock that command 1 sets: whether its day and its time are possible.
ghost use Rattle.std.specs.Prelude.{◌≡◌, ◌&&◌, leb};
ghost use Rattle.time_days.specs.Calendar.{has_day};

// Whether a date is one of the calendar whose day is in the range: one that is too large for its fields is none. By the lengths of the months,
// so that no table of month starts is laid out for it.
pub fn is_day(year: u64, month: u64, day: u64) -> bool
    ensures { result ≡ has_day year month day }
{
    if 0xFFFF < year {
        return false;
    }
    if 0xFF < month {
        return false;
    }
    if 0xFF < day {
        return false;
    }
    time_dates::is_date(year as u32, month as u32, day as u32)
}

// Whether a time is at most 23:59:59.
pub fn is_time(hour: u64, minute: u64, second: u64) -> bool
    ensures { result ≡ (leb hour 23 && (leb minute 59 && leb second 59)) }
{
    if 23 < hour {
        return false;
    }
    if 59 < minute {
        return false;
    }
    second <= 59
}
