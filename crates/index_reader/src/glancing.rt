// The body of an index table at a glance, from a message's fields up to the whole: whether each is good, yes or no. A walk tells what is wrong.
ghost use Rattle.std.specs.Prelude.{◌+◌, ◌≤◌, length};
ghost use Rattle.body_formats.specs.Format.{bytes_among, nibbles_among};
ghost use Rattle.body_glance.specs.Glance.{Good, Filled};
ghost use Rattle.index.specs.Index.{head, message_fields, index};

use body_formats::RESOURCE_BYTES;
use body_numbers::two_bytes;
use ground_numbers::wide;
use index::{CLASS_PLACE, END_PLACE, RESOURCE_COUNT_PLACE, START_PLACE, TYPE_PLACE};

// Where the resources begin, after their count.
const RESOURCES_PLACE: usize = RESOURCE_COUNT_PLACE + 1;

// "type five bytes each at most 0x7F".
fn good_type(s: &[u8], p: usize) -> bool
    requires { p + 5 ≤ length s.now }
    ensures { Good (bytes_among 0 0x7F 5) s.now p (p + 5) result }
{
    (s[p] <= 0x7F)
        & (s[p + 1] <= 0x7F)
        & (s[p + 2] <= 0x7F)
        & (s[p + 3] <= 0x7F)
        & (s[p + 4] <= 0x7F)
}

// "class 4 bits (1 to 4), level 4 bits (1 to 4)".
fn good_class_and_level(s: &[u8], p: usize) -> bool
    requires { p + 1 ≤ length s.now }
    ensures { Good (nibbles_among 1 4) s.now p (p + 1) result }
{
    let class = s[p] / 16;
    let level = s[p] % 16;
    (1 <= class) & (class <= 4) & (1 <= level) & (level <= 4)
}

// From the identifier to the level.
fn good_head(s: &[u8], p: usize) -> bool
    requires { p + 36 ≤ length s.now }
    ensures { Good head s.now p (p + 36) result }
{
    if !body_glance::good_identifier(s, p) {
        return false;
    }
    if !body_glance::good_time(s, p + START_PLACE) {
        return false;
    }
    if !body_glance::good_end(s, p + END_PLACE) {
        return false;
    }
    if !good_type(s, p + TYPE_PLACE) {
        return false;
    }
    good_class_and_level(s, p + CLASS_PLACE)
}

// The fields of a message, which end at l.
fn good_message(s: &[u8], p: usize, l: usize) -> bool
    requires { (p ≤ l) × (l ≤ length s.now) }
    ensures { Good message_fields s.now p l result }
{
    if l - p < 38 {
        return false;
    }
    if !good_head(s, p) {
        return false;
    }
    let resources = wide(s[p + RESOURCE_COUNT_PLACE]) as usize;
    let end = p + RESOURCES_PLACE + resources * RESOURCE_BYTES;
    if l <= end {
        return false;
    }
    if !body_glance::good_resources(s, p + RESOURCES_PLACE, resources) {
        return false;
    }
    index_channel_reader::glancing::good_flagged(s, end, l)
}

// The whole table: "8-bit message count; each message: 16-bit EBM_length", its fields; "Last: 16-bit signature length and signature", and no byte left.
pub fn good_index(s: &[u8]) -> bool
    ensures { Filled index s.now (length s.now) 0 result }
{
    let l = s.len();
    if l < 1 {
        return false;
    }
    let mut at: usize = 1;
    for i in 0..s[0] {
        if l - at < 2 {
            return false;
        }
        let n = two_bytes(s, at);
        if l - at - 2 < n {
            return false;
        }
        let end = at + 2 + n;
        if !good_message(s, at + 2, end) {
            return false;
        }
        at = end;
    }
    if l - at < 2 {
        return false;
    }
    two_bytes(s, at) == l - at - 2
}
