// A message's channel at a glance, from its descriptors up: whether each is good, yes or no. A walk tells what is wrong.
ghost use Rattle.std.specs.Prelude.{◌≡◌, ◌+◌, ◌≤◌, ◌<◌, length};
ghost use Rattle.body_formats.specs.Format.{number_at, many};
ghost use Rattle.body_glance.specs.Glance.{Good, Filled};
ghost use Rattle.index.specs.Index.{descriptor, stream, channel, flagged};

use body_numbers::two_bytes;
use ground_numbers::wide;
use index::{CHANNEL_DESCRIPTORS_PLACE, PCR_PID_PLACE, STREAM_DESCRIPTORS_PLACE, STREAM_PID_PLACE};

// The descriptors that fill the part from p to l: "tag, 8-bit length, data" each.
fn good_descriptors(s: &[u8], p: usize, l: usize) -> bool
    requires { (p ≤ l) × (l ≤ length s.now) }
    ensures { Filled (many descriptor) s.now l p result }
{
    let mut at = p;
    while at < l {
        if l - at < 2 {
            return false;
        }
        let n = wide(s[at + 1]) as usize;
        if l - at - 2 < n {
            return false;
        }
        at = at + 2 + n;
    }
    true
}

// "type 8, 3 reserved, PID 13, 4 reserved, length 12, descriptors", which end at l.
fn good_stream(s: &[u8], p: usize, l: usize) -> bool
    requires { (p + 5 ≤ l) × (l < p + 5 + 1024) × (l ≤ length s.now) }
    ensures { Good stream s.now p l result }
{
    if s[p + STREAM_PID_PLACE] < 0xE0 {
        return false;
    }
    if two_bytes(s, p + STREAM_DESCRIPTORS_PLACE) != 0xF000 + (l - p - 5) {
        return false;
    }
    good_descriptors(s, p + 5, l)
}

// The streams that fill the part from p to l.
fn good_streams(s: &[u8], p: usize, l: usize) -> bool
    requires { (p ≤ l) × (l ≤ length s.now) }
    ensures { Filled (many stream) s.now l p result }
{
    let mut at = p;
    while at < l {
        if l - at < 5 {
            return false;
        }
        let n = two_bytes(s, at + STREAM_DESCRIPTORS_PLACE) % 1024;
        if l - at - 5 < n {
            return false;
        }
        let end = at + 5 + n;
        if !good_stream(s, at, end) {
            return false;
        }
        at = end;
    }
    true
}

// "network, stream, program 16 each; 3 reserved, PCR PID 13", descriptors and streams, which end at l.
fn good_channel(s: &[u8], p: usize, l: usize) -> bool
    requires { (p ≤ l) × (l ≤ length s.now) }
    ensures { Good channel s.now p l result }
{
    if l - p < 12 {
        return false;
    }
    if s[p + PCR_PID_PLACE] < 0xE0 {
        return false;
    }
    let size = two_bytes(s, p + CHANNEL_DESCRIPTORS_PLACE);
    if size / 1024 != 60 {
        return false;
    }
    let end = p + 10 + size % 1024;
    if l < end + 2 {
        return false;
    }
    if two_bytes(s, end) != l - end - 2 {
        return false;
    }
    if !good_descriptors(s, p + 10, end) {
        return false;
    }
    good_streams(s, end + 2, l)
}

// "7 reserved, channel flag. If 1:" the channel. What they are ends at l.
pub fn good_flagged(s: &[u8], p: usize, l: usize) -> bool
    requires { (p < l) × (l ≤ length s.now) }
    ensures { Good flagged s.now p l result }
{
    let flag = s[p];
    if flag == 0xFE {
        return p + 1 == l;
    }
    if flag != 0xFF {
        return false;
    }
    good_channel(s, p + 1, l)
}
