// Local time and UTC: a moment moved by an offset in signed minutes, the day carried by floor division.
#![tactic(auto)]

ghost use Rattle.std.specs.Prelude.{◌≡◌, ◌<◌};
ghost use Rattle.std.specs.Int.Signed.{mag};
ghost use Rattle.time_offset.specs.Offset.{floor_div, floor_mod, is_offset, moved, to_utc, to_local};

use ground_refusal::Refusal;
use time_fields::Moment;

// Minutes as days and a minute of the day.
#[derive(Clone, Copy)]
struct Floored {
    days: i32,
    minute: u32,
}

// Floor division by the minutes of a day. `/` and `%` cut toward 0, so a number below 0 goes by the one before its opposite.
fn floor(minutes: i32) -> Floored
    ensures { (result.days ≡ floor_div minutes 1440) × (result.minute ≡ floor_mod minutes 1440) }
{
    if minutes < 0 {
        let before = -1 - minutes;
        return Floored {
            days: -1 - before / 1440,
            minute: (1439 - before % 1440) as u32,
        };
    }
    Floored {
        days: minutes / 1440,
        minute: (minutes % 1440) as u32,
    }
}

// The moment so many minutes later, or earlier for a number below 0: less than a day either way.
fn later(m: Moment, minutes: i32) -> Result<Moment, Refusal>
    requires { mag minutes < 1440 }
    ensures { result ≡ moved m minutes }
{
    if !time_fields::is_instant(m) {
        return Err(Refusal::ImpossibleDay(0));
    }
    let carried = floor((m.second / 60) as i32 + minutes);
    let to = Moment {
        day: ((m.day as i32) + carried.days) as u32,
        second: carried.minute * 60 + m.second % 60,
    };
    if !time_fields::is_instant(to) {
        return Err(Refusal::ImpossibleDay(0));
    }
    Ok(to)
}

// Whether an offset is one of −720 to +840 minutes, east positive.
#[tactic(auto, unfolding(crate::specs::Offset::is_offset))]
pub fn permitted(offset: i32) -> bool
    ensures { result ≡ is_offset offset }
{
    -720 <= offset && offset <= 840
}

// The UTC moment of a local one: less the offset.
#[tactic(auto, using(crate::proofs::Moving::offset_short), unfolding(crate::specs::Offset::to_utc))]
pub fn to_utc(local: Moment, offset: i32) -> Result<Moment, Refusal>
    ensures { result ≡ to_utc local offset }
{
    if !permitted(offset) {
        return Err(Refusal::OutsideSet(0));
    }
    later(local, -offset)
}

// The local moment of a UTC one: with the offset added.
#[tactic(auto, using(crate::proofs::Moving::offset_short), unfolding(crate::specs::Offset::to_local))]
pub fn to_local(utc: Moment, offset: i32) -> Result<Moment, Refusal>
    ensures { result ≡ to_local utc offset }
{
    if !permitted(offset) {
        return Err(Refusal::OutsideSet(0));
    }
    later(utc, offset)
}
