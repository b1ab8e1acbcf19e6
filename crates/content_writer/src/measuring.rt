// The pen through the form of a content table, from its auxiliary files up to the whole: each is one field of the format of its name,
// and w is the width in bytes of an auxiliary file's length.
ghost use Rattle.std.specs.Prelude.{◌≡◌, ◌≤◌};
ghost use Rattle.body_formats.specs.Format.{among, reserved, list_of};
ghost use Rattle.body_pen.specs.Penned.{penned};
ghost use Rattle.content.specs.Content.{auxiliary, auxiliaries, language, content};

use body_pen::Pen;

// "type 8 (free), length 24, data", the length of w bytes.
fn pen_auxiliary(pool: &[u8], tape: &[u64], x: Pen, w: usize) -> Pen
    requires { w ≤ 7 }
    ensures { result ≡ penned (auxiliary w) pool.now tape.now x }
{
    let a = body_pen::pen_number(tape, x, 1);
    body_pen::pen_part(pool, tape, a, w)
}

// "4 reserved, auxiliary count 4 bits (0 to 2)", and each of them.
fn pen_auxiliaries(pool: &[u8], tape: &[u64], x: Pen, w: usize) -> Pen
    requires { w ≤ 7 }
    ensures { result ≡ penned (auxiliaries w) pool.now tape.now x }
{
    let (mut past, n) = body_pen::pen_reserved_among(tape, x, 4, 0, 0, 2)?;
    for _ in 0..n {
        past = pen_auxiliary(pool, tape, Ok(past), w)?;
    }
    Ok(past)
}

// "32-bit length, three letters a to z, 5 reserved, character set 3 bits (0 to 4)", text, agency and auxiliary files, which fill it.
fn pen_language(pool: &[u8], tape: &[u64], x: Pen, w: usize) -> Pen
    requires { w ≤ 7 }
    ensures { result ≡ penned (language w) pool.now tape.now x }
{
    let a = body_pen::gap(x, 4);
    let b = body_pen::pen_bytes(pool, tape, a, 3, 0x61, 0x7A);
    let (c, set) = body_pen::pen_reserved_among(tape, b, 5, 0, 0, 4)?;
    let d = body_pen::pen_part(pool, tape, Ok(c), 2);
    let e = body_pen::pen_part(pool, tape, d, 1);
    let f = pen_auxiliaries(pool, tape, e, w);
    body_pen::close(x, f, 4, 4294967296)
}

// "4 reserved, language count 4 bits (1 to 5); each language".
fn pen_languages(pool: &[u8], tape: &[u64], x: Pen, w: usize) -> Pen
    requires { w ≤ 7 }
    ensures { result ≡ penned (list_of (among 1 5 (reserved 4 0)) (language w)) pool.now tape.now x }
{
    let (mut past, n) = body_pen::pen_reserved_among(tape, x, 4, 0, 1, 5)?;
    for _ in 0..n {
        past = pen_language(pool, tape, Ok(past), w)?;
    }
    Ok(past)
}

// The whole table: its identifier, its languages and the signature.
pub fn pen_content(pool: &[u8], tape: &[u64], x: Pen, w: usize) -> Pen
    requires { w ≤ 7 }
    ensures { result ≡ penned (content w) pool.now tape.now x }
{
    let a = body_pen::pen_identifier(pool, tape, x);
    let b = pen_languages(pool, tape, a, w);
    body_pen::pen_part(pool, tape, b, 2)
}
