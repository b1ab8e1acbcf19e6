// Whether a date is one of 1 March 1900 to 22 April 2038, by the lengths of its month: the calendar's answer, without its table of month starts.
#![tactic(auto)]

ghost use Rattle.std.specs.Prelude.{◌≡◌};
ghost use Rattle.time_days.specs.Calendar.{leap, month_length, has_day};

// The range's first and last month, March 1900 and April 2038, as year * 12 + month; and its last day, of the last month.
const FIRST_MONTH: u64 = 1900 * 12 + 3;

const LAST_MONTH: u64 = 2038 * 12 + 4;

const LAST_DAY: u32 = 22;

// Is it a leap year?
#[tactic(auto, unfolding(time_days::specs::Calendar::leap))]
fn is_leap(year: u32) -> bool
    ensures { result ≡ leap year }
{
    year % 4 == 0 && (year % 100 != 0 || year % 400 == 0)
}

// The days of a month.
#[tactic(auto, unfolding(time_days::specs::Calendar::month_length))]
fn month_length(year: u32, month: u32) -> u32
    ensures { result ≡ month_length year month }
{
    match month {
        2 => if is_leap(year) { 29 } else { 28 },
        4 | 6 | 9 | 11 => 30,
        _ => 31,
    }
}

// Is it a date of the calendar from 1 March 1900 to 22 April 2038?
pub fn is_date(year: u32, month: u32, day: u32) -> bool
    ensures { result ≡ has_day year month day }
{
    let months = (year as u64) * 12 + (month as u64);
    if month < 1 || 12 < month || day < 1 || months < FIRST_MONTH || LAST_MONTH < months {
        return false;
    }
    if months == LAST_MONTH {
        return day <= LAST_DAY;
    }
    day <= month_length(year, month)
}
