// The fields of a content table, asked for one by one: of the body, of a language told by where it begins and its length, of its i-th auxiliary file.
#![tactic(auto)]

ghost use Rattle.std.specs.Prelude.{◌≡◌, ◌+◌, ◌≤◌, ◌<◌, length, Ok, IfSome};
ghost use Rattle.body_formats.specs.Format.{among, reserved};
ghost use Rattle.body_formats.specs.Answers.{step_of, number_of, ended};
ghost use Rattle.body_asking.specs.Asking.{headed_part, nth_of};
ghost use Rattle.content_fields.specs.Asked.{identifier_part, identifier_digit, extension, language_count, language_part, signature_part, letters_part, character_set, text_part, agency_part, auxiliary_count, auxiliary_type, auxiliary_part, variant_type, variant_part};
ghost use Rattle.content_fields.specs.Glance.{CountAt, FileAt};

use body_formats::{Number, Part};
use ground_numbers::wide;
use ground_refusal::Refusal;

// The part of the body that the identifier fills.
pub fn identifier(s: &[u8]) -> Part
    ensures { result ≡ identifier_part s.now }
{
    body_identifier::read_identifier(s, s.len(), 0)
}

// The i-th digit of the identifier.
pub fn identifier_digit(s: &[u8], i: u64) -> Number
    ensures { result ≡ identifier_digit s.now i }
{
    body_identifier::identifier_digit_at(s, s.len(), 0, i)
}

// The extension that goes with the body: that of its identifier.
pub fn extension(s: &[u8]) -> Number
    ensures { result ≡ extension s.now }
{
    body_extension::extension_at(s, s.len(), 0)
}

// k reserved one bits and a number from lo to hi, in one byte.
fn number_among(s: &[u8], l: usize, p: usize, k: usize, lo: u64, hi: u64) -> Number
    requires { k ≤ 8 }
    ensures { result ≡ number_of ((among lo hi (reserved k 0)).parse s.now l p) }
{
    body_numbers::among(body_numbers::read_reserved(s, l, p, k, 0), p, lo, hi)
}

// How many languages there are.
pub fn language_count(s: &[u8]) -> Number
    ensures { result ≡ language_count s.now }
{
    number_among(s, s.len(), 18, 4, 1, 5)
}

// The part of the body that the i-th language fills.
pub fn language(s: &[u8], i: u64) -> Part
    ensures { result ≡ language_part s.now i }
{
    let l = s.len();
    let (n, q) = language_count(s)?;
    let p = body_asking::nth_entry(s, l, q, 0, 4, n, i)?;
    body_parts::read_part(s, l, p, 4)
}

// The part of the body that the signature fills.
pub fn signature(s: &[u8]) -> Part
    ensures { result ≡ signature_part s.now }
{
    let l = s.len();
    let (n, q) = language_count(s)?;
    let p = body_asking::skip_entries(s, l, q, 0, 4, n)?;
    body_parts::read_part(s, l, p, 2)
}

// The part of the body that the three letters of the language fill.
pub fn letters(s: &[u8], at: usize, n: usize) -> Part
    ensures { result ≡ letters_part s.now at n }
{
    if body_asking::in_body(s, at, n) {
        return body_digits::read_bytes(s, at + n, at, 3, 0x61, 0x7A);
    }
    Err(Refusal::OutsideSet(0))
}

pub fn character_set(s: &[u8], at: usize, n: usize) -> Number
    ensures { result ≡ character_set s.now at n }
{
    if body_asking::in_body(s, at, n) {
        return number_among(s, at + n, at + 3, 5, 0, 4);
    }
    Err(Refusal::OutsideSet(0))
}

// The part of the body that the text fills.
pub fn text(s: &[u8], at: usize, n: usize) -> Part
    ensures { result ≡ text_part s.now at n }
{
    if body_asking::in_body(s, at, n) {
        return body_parts::read_part(s, at + n, at + 4, 2);
    }
    Err(Refusal::OutsideSet(0))
}

// The part of the body that the agency fills: it follows the text.
pub fn agency(s: &[u8], at: usize, n: usize) -> Part
    ensures { result ≡ agency_part s.now at n }
{
    let (a, m) = text(s, at, n)?;
    body_parts::read_part(s, at + n, a + m, 1)
}

// How many auxiliary files the language has.
pub fn auxiliary_count(s: &[u8], at: usize, n: usize) -> Number
    ensures { result ≡ auxiliary_count s.now at n }
{
    let (a, m) = agency(s, at, n)?;
    number_among(s, at + n, a + m, 4, 0, 2)
}

// ---- an auxiliary file at a glance: nothing where it is to be looked for field by field, which tells what is wrong

// Where the auxiliary count stands, after the text and the agency.
fn count_place(s: &[u8], at: usize, n: usize) -> Option<usize>
    ensures { IfSome result (CountAt s.now at n) }
{
    let end = s.len();
    if end < at {
        return None;
    }
    if end - at < n {
        return None;
    }
    if n < 7 {
        return None;
    }
    let l = at + n;
    let t = at + 6 + body_numbers::two_bytes(s, at + 4);
    if l <= t {
        return None;
    }
    let q = t + 1 + (wide(s[t]) as usize);
    if l <= q {
        return None;
    }
    Some(q)
}

// Past the file at p, to one more in the part.
fn past_file(w: usize, s: &[u8], l: usize, p: usize) -> Option<usize>
    requires { (p ≤ l) × (l ≤ length s.now) × (3 ≤ w) × (w ≤ 4) }
    ensures { IfSome result (λ r. (r < l) × (Ok r ≡ ended (headed_part 1 w) s.now l p)) }
{
    if l - p <= w {
        return None;
    }
    let q = p + 1 + w;
    let m = body_numbers::three_or_four_bytes(s, p + 1, w);
    if l - q <= m {
        return None;
    }
    Some(q + m)
}

// The i-th of m files, of which the first begins at p: there are two at most.
fn nth_file(w: usize, s: &[u8], l: usize, p: usize, m: u64, i: u64) -> Option<usize>
    requires { (l ≤ length s.now) × (3 ≤ w) × (w ≤ 4) }
    ensures { IfSome result (λ r. (r < l) × (Ok r ≡ step_of (nth_of (headed_part 1 w) m i s.now l p))) }
{
    if m <= i {
        return None;
    }
    if l <= p {
        return None;
    }
    if i == 0 {
        return Some(p);
    }
    if i == 1 {
        return past_file(w, s, l, p);
    }
    None
}

// The i-th file, w the width in bytes of its length.
fn file_place(w: usize, s: &[u8], at: usize, n: usize, i: u64) -> Option<usize>
    requires { (3 ≤ w) × (w ≤ 4) }
    ensures { IfSome result (FileAt w s.now at n i) }
{
    let q = count_place(s, at, n)?;
    let count = wide(s[q]);
    if count < 0xF0 {
        return None;
    }
    if 0xF2 < count {
        return None;
    }
    nth_file(w, s, at + n, q + 1, count - 0xF0, i)
}

// ---- an auxiliary file, w the width in bytes of its length

// Its type, which begins it, or why there is none.
fn type_walked(w: usize, s: &[u8], at: usize, n: usize, i: u64) -> Number
    requires { w ≤ 7 }
    ensures { result ≡ auxiliary_type w s.now at n i }
{
    let (m, q) = auxiliary_count(s, at, n)?;
    let p = body_asking::nth_entry(s, at + n, q, 1, w, m, i)?;
    body_numbers::read_number(s, at + n, p, 1)
}

// Its type: nearly every file that is asked for is there.
fn type_wide(w: usize, s: &[u8], at: usize, n: usize, i: u64) -> Number
    requires { (3 ≤ w) × (w ≤ 4) }
    ensures { result ≡ auxiliary_type w s.now at n i }
{
    match file_place(w, s, at, n, i) {
        Some(p) => Ok((wide(s[p]), p + 1)),
        None => type_walked(w, s, at, n, i),
    }
}

// The part of the body that its data fill. Its type is not asked for by `type_wide`, so that neither is a call: both are inlined where they are used.
fn part_wide(w: usize, s: &[u8], at: usize, n: usize, i: u64) -> Part
    requires { (3 ≤ w) × (w ≤ 4) }
    ensures { result ≡ auxiliary_part w s.now at n i }
{
    if let Some(p) = file_place(w, s, at, n, i) {
        return body_parts::read_part(s, at + n, p + 1, w);
    }
    let (_t, q) = type_walked(w, s, at, n, i)?;
    body_parts::read_part(s, at + n, q, w)
}

// The type of the i-th auxiliary file, in a table of this variant.
pub fn auxiliary_type(variant: u32, s: &[u8], at: usize, n: usize, i: u64) -> Number
    ensures { result ≡ variant_type variant s.now at n i }
{
    let w = content_variant::width_of(variant)?;
    type_wide(w, s, at, n, i)
}

// The part of the body that the data of the i-th auxiliary file fill, in a table of this variant.
pub fn auxiliary(variant: u32, s: &[u8], at: usize, n: usize, i: u64) -> Part
    ensures { result ≡ variant_part variant s.now at n i }
{
    let w = content_variant::width_of(variant)?;
    part_wide(w, s, at, n, i)
}
