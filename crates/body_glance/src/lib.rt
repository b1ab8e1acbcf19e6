// Fields of a body at a glance: whether they are as they must be, yes or no, and not what is wrong. A walk through the body tells that.
#![tactic(auto)]

ghost use Rattle.std.specs.Prelude.{◌≡◌, ◌+◌, ◌*◌, ◌≤◌, ◌<◌, length};
ghost use Rattle.body_formats.specs.Format.{digits, times};
ghost use Rattle.body_formats.specs.Time.{time, end_time};
ghost use Rattle.body_formats.specs.Resource.{resource};
ghost use Rattle.body_formats.specs.Identifier.{identifier};
ghost use Rattle.body_glance.specs.Glance.{Good};

use body_formats::{IDENTIFIER_PAIRS, RESOURCE_BYTES};
use ground_numbers::wide;

// Four reserved bits and 2 h + 1 decimal digits.
pub fn good_digits(s: &[u8], p: usize, h: usize) -> bool
    requires { p + (h + 1) ≤ length s.now }
    ensures { Good (digits h) s.now p (p + (h + 1)) result }
{
    let first = s[p];
    if first < 240 {
        return false;
    }
    if 249 < first {
        return false;
    }
    body_digits::all_decimal(s, p + 1, h)
}

// "4 reserved, 35 digits", with a real day among them.
pub fn good_identifier(s: &[u8], p: usize) -> bool
    requires { p + 18 ≤ length s.now }
    ensures { Good identifier s.now p (p + 18) result }
{
    if !good_digits(s, p, IDENTIFIER_PAIRS) {
        return false;
    }
    body_identifier::has_decimal_day(s, p)
}

// "4 reserved + 23 digits", by the first byte and twice eight of the eleven others: a loop that calls this has no call and no loop in it.
fn good_resource(s: &[u8], p: usize) -> bool
    requires { p + 12 ≤ length s.now }
    ensures { Good resource s.now p (p + 12) result }
{
    let head = s[p];
    if head < 240 {
        return false;
    }
    if 249 < head {
        return false;
    }
    if !body_digits::eight(s, p + 1) {
        return false;
    }
    body_digits::eight(s, p + 4)
}

// n resources.
pub fn good_resources(s: &[u8], p: usize, n: usize) -> bool
    requires { p + n * 12 ≤ length s.now }
    ensures { Good (times n resource) s.now p (p + n * 12) result }
{
    let mut at = p;
    for i in 0..n {
        if !good_resource(s, at) {
            return false;
        }
        at = at + RESOURCE_BYTES;
    }
    true
}

// "16-bit MJD, then six digits hhmmss, UTC, at most 23, 59, 59": digits that are decimal come in the order of what they are worth.
pub fn good_time(s: &[u8], p: usize) -> bool
    requires { p + 5 ≤ length s.now }
    ensures { Good time s.now p (p + 5) result }
{
    let day = wide(s[p]) * 256 + wide(s[p + 1]);
    let hour = s[p + 2];
    let minute = s[p + 3];
    let second = s[p + 4];
    let timely = (15079 <= day) & (hour <= 0x23) & (minute <= 0x59) & (second <= 0x59);
    timely & (hour % 16 <= 9) & (minute % 16 <= 9) & (second % 16 <= 9)
}

// An end: a time, or the live mark.
pub fn good_end(s: &[u8], p: usize) -> bool
    requires { p + 5 ≤ length s.now }
    ensures { Good end_time s.now p (p + 5) result }
{
    if good_time(s, p) {
        return true;
    }
    (s[p] == 255) & (s[p + 1] == 255) & (s[p + 2] == 255) & (s[p + 3] == 255) & (s[p + 4] == 255)
}
