// The fields of a certificate table, asked for one by one. `certificate_reader` reads the table, `certificate_writer` writes it.
#![tactic(auto)]

ghost use Rattle.std.specs.Prelude.{◌≡◌};
ghost use Rattle.certificate_fields.specs.Asked.{authorization_count, authorization_part, certificate_count, certificate_part, signature_part};

use body_formats::{Number, Part};

// How many certificate authorization lists there are.
pub fn authorization_count(s: &[u8]) -> Number
    ensures { result ≡ authorization_count s.now }
{
    body_numbers::read_number(s, s.len(), 0, 1)
}

// The part of the body that the i-th certificate authorization list fills.
pub fn authorization(s: &[u8], i: u64) -> Part
    ensures { result ≡ authorization_part s.now i }
{
    body_parts::listed_part(s, s.len(), 0, 1, 2, i)
}

// How many certificates there are.
pub fn certificate_count(s: &[u8]) -> Number
    ensures { result ≡ certificate_count s.now }
{
    let a = body_parts::skip_list(s, s.len(), 0, 1, 2)?;
    body_numbers::read_number(s, s.len(), a, 1)
}

// The part of the body that the i-th certificate fills.
pub fn certificate(s: &[u8], i: u64) -> Part
    ensures { result ≡ certificate_part s.now i }
{
    let a = body_parts::skip_list(s, s.len(), 0, 1, 2)?;
    body_parts::listed_part(s, s.len(), a, 1, 1, i)
}

// The part of the body that the signature fills.
pub fn signature(s: &[u8]) -> Part
    ensures { result ≡ signature_part s.now }
{
    let l = s.len();
    let a = body_parts::skip_list(s, l, 0, 1, 2)?;
    let b = body_parts::skip_list(s, l, a, 1, 1)?;
    body_parts::read_part(s, l, b, 2)
}
