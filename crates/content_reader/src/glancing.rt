// A glance at the body of a content table, from its auxiliary files up to the whole: yes or no, w the width of an auxiliary file's length, 3 or 4
// bytes. What is taken for good is found by the format of its name; what is not is left to a walk.
ghost use Rattle.std.specs.Prelude.{◌+◌, ◌≤◌, ◌<◌, length};
ghost use Rattle.body_formats.specs.Format.{◌▷◌, among, reserved, list_of, opaque};
ghost use Rattle.body_glance.specs.Glance.{Good, Filled};
ghost use Rattle.content.specs.Content.{auxiliaries, language_fields, language, content};

use body_numbers::two_bytes;
use ground_numbers::wide;

// "4 reserved, auxiliary count 4 bits (0 to 2), each with type 8 (free), length 24, data", and no byte left at l.
fn good_auxiliaries(s: &[u8], p: usize, l: usize, w: usize) -> bool
    requires { (p < l) × (l ≤ length s.now) × (3 ≤ w) × (w ≤ 4) }
    ensures { Good (auxiliaries w) s.now p l result }
{
    let count = s[p];
    if count < 0xF0 {
        return false;
    }
    if 0xF2 < count {
        return false;
    }
    let mut at = p + 1;
    for i in 0..count - 0xF0 {
        if l - at <= w {
            return false;
        }
        let data = at + 1 + w;
        let n = body_numbers::three_or_four_bytes(s, at + 1, w);
        if l - data < n {
            return false;
        }
        at = data + n;
    }
    at == l
}

// "three letters a to z, 5 reserved, character set 3 bits (0 to 4), 16-bit text length, text, 8-bit agency length, agency", and the auxiliary
// files, up to l: eight bytes, and what they count.
fn good_language(s: &[u8], p: usize, l: usize, w: usize) -> bool
    requires { (p ≤ l) × (l ≤ length s.now) × (3 ≤ w) × (w ≤ 4) }
    ensures { Good (language_fields w) s.now p l result }
{
    if l - p < 8 {
        return false;
    }
    if !body_digits::all_among(s, p, 3, 0x61, 0x7A) {
        return false;
    }
    let set = s[p + 3];
    if set < 0xF8 {
        return false;
    }
    if 0xFC < set {
        return false;
    }
    let text = two_bytes(s, p + 4);
    if l - p - 8 < text {
        return false;
    }
    let at = p + 6 + text;
    let agency = wide(s[at]) as usize;
    if l - at - 2 < agency {
        return false;
    }
    good_auxiliaries(s, at + 1 + agency, l, w)
}

// "4 reserved, language count 4 bits (1 to 5); each language: 32-bit length", and the signature, which the rest of the body is.
fn good_languages(s: &[u8], p: usize, w: usize) -> bool
    requires { (p < length s.now) × (3 ≤ w) × (w ≤ 4) }
    ensures { Good (list_of (among 1 5 (reserved 4 0)) (language w) ▷ opaque 2) s.now p (length s.now) result }
{
    let l = s.len();
    let count = s[p];
    if count < 0xF1 {
        return false;
    }
    if 0xF5 < count {
        return false;
    }
    let mut at = p + 1;
    for i in 0..count - 0xF0 {
        if l - at < 4 {
            return false;
        }
        let fields = at + 4;
        let n = body_numbers::three_or_four_bytes(s, at, 4);
        if l - fields < n {
            return false;
        }
        at = fields + n;
        if !good_language(s, fields, at, w) {
            return false;
        }
    }
    if l - at < 2 {
        return false;
    }
    l - at - 2 == two_bytes(s, at)
}

// The whole table: "4 reserved, 35 digits", the languages, the signature, and no byte left.
pub fn good_content(s: &[u8], w: usize) -> bool
    requires { (3 ≤ w) × (w ≤ 4) }
    ensures { Filled (content w) s.now (length s.now) 0 result }
{
    if s.len() < 19 {
        return false;
    }
    if !body_glance::good_identifier(s, 0) {
        return false;
    }
    good_languages(s, 18, w)
}
