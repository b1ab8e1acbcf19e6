// Days by their numbers (MJD), from 1 March 1900 to 22 April 2038: the day of a date, the date of a day, the weekday of a day.
#![tactic(auto)]

ghost use Rattle.std.specs.Prelude.{◌≡◌, suc, min, ◌≤◌, ◌<◌};
ghost use Rattle.time_days.specs.Calendar.{IsMonths, month_start, in_range, day_of, date_of, weekday_of, year_of, month_of};

use ground_refusal::Refusal;
use starts::MONTHS;

mod starts; // starts.rt: the table of month starts

#[derive(Clone, Copy)]
pub struct Date {
    pub year: u32,
    pub month: u32,
    pub day: u32,
}

const FIRST_DAY: u64 = 15079;

const LAST_DAY: u64 = 65535;

const AFTER_LAST_DAY: u32 = 65536;

// The range's first and last month, March 1900 and April 2038, as year * 12 + month.
const FIRST_MONTH: u64 = 1900 * 12 + 3;

const LAST_MONTH: u64 = 2038 * 12 + 4;

// Whether a day is one of 15079 to 65535.
#[tactic(auto, unfolding(crate::specs::Calendar::in_range))]
pub fn in_range(day: u64) -> bool
    ensures { result ≡ in_range day }
{
    ground_numbers::within(FIRST_DAY, day, LAST_DAY)
}

// The first day of a month, counted from March 1900.
fn start_of(starts: &[u16; MONTHS], k: usize) -> u32
    requires { IsMonths starts.now × (k < 1658) }
    ensures { result ≡ month_start k }
{
    starts[k] as u32
}

// The month that a day lies in, counted from March 1900: the last one that starts no later.
fn month_of(starts: &[u16; MONTHS], day: u32) -> usize
    requires { IsMonths starts.now × (15079 ≤ day) × (day ≤ 65535) }
    ensures { (result < 1658) × (month_start result ≤ day) × (day < month_start (suc result)) }
{
    starts.partition_point(|start| *start as u32 <= day) - 1
}

// The date of a day.
pub fn date_of(day: u32) -> Result<Date, Refusal>
    ensures { result ≡ date_of day }
{
    if !in_range(day as u64) {
        return Err(Refusal::ImpossibleDay(0));
    }
    let starts = starts::month_starts();
    let k = month_of(&starts, day);
    let start = start_of(&starts, k);
    Ok(Date {
        year: (1900 + (k + 2) / 12) as u32,
        month: ((k + 2) % 12 + 1) as u32,
        day: day - start + 1,
    })
}

// The first day after a month, or after the range, which ends within its last month.
fn month_end(starts: &[u16; MONTHS], k: usize) -> u32
    requires { IsMonths starts.now × (k < 1658) }
    ensures { result ≡ min (month_start (suc k)) 65536 }
{
    let next = k + 1;
    if next == MONTHS {
        return AFTER_LAST_DAY;
    }
    start_of(starts, next)
}

// The day of a date in a month of the table.
fn day_in(starts: &[u16; MONTHS], k: usize, day: u32) -> Result<u32, Refusal>
    requires { IsMonths starts.now × (k < 1658) × (1 ≤ day) }
    ensures { result ≡ day_of (year_of k) (month_of k) day }
{
    let start = start_of(starts, k);
    let past = day - 1;
    if month_end(starts, k) - start <= past {
        return Err(Refusal::ImpossibleDay(0));
    }
    Ok(start + past)
}

// The day of a date.
pub fn day_of(year: u32, month: u32, day: u32) -> Result<u32, Refusal>
    ensures { result ≡ day_of year month day }
{
    let months = (year as u64) * 12 + (month as u64);
    if month < 1 || 12 < month || day < 1 || months < FIRST_MONTH || LAST_MONTH < months {
        return Err(Refusal::ImpossibleDay(0));
    }
    let starts = starts::month_starts();
    day_in(&starts, (months - FIRST_MONTH) as usize, day)
}

// The weekday of a day.
#[tactic(auto, unfolding(crate::specs::Calendar::weekday_of, crate::specs::Calendar::in_range))]
pub fn weekday(day: u32) -> Result<u32, Refusal>
    ensures { result ≡ weekday_of day }
{
    if !in_range(day as u64) {
        return Err(Refusal::ImpossibleDay(0));
    }
    Ok((day + 2) % 7 + 1)
}
