// Walks through the body of a content table, from its auxiliary files up to the whole: each is one field of the format of its name, w the width of an auxiliary file's length.
ghost use Rattle.std.specs.Prelude.{◌≤◌, length};
ghost use Rattle.body_formats.specs.Format.{among, reserved, list_of};
ghost use Rattle.body_walk.specs.Walked.{Walked};
ghost use Rattle.content.specs.Content.{auxiliary, auxiliaries, language_fields, language, content};

use body_walk::Walk;

// "type 8 (free), length 24, data", the length of w bytes.
fn walk_auxiliary(s: &[u8], l: usize, x: Walk, w: usize, tape: &mut [u64], wet: bool) -> Walk
    requires { w ≤ 7 }
    ensures { Walked (auxiliary w) s.now l x wet tape.old result tape.new }
{
    let a = body_walk::walk_number(s, l, x, 1, tape, wet);
    body_walk::walk_part(s, l, a, w, tape, wet)
}

// "4 reserved, auxiliary count 4 bits (0 to 2)", and so many auxiliary files.
fn walk_auxiliaries(s: &[u8], l: usize, x: Walk, w: usize, tape: &mut [u64], wet: bool) -> Walk
    requires { w ≤ 7 }
    ensures { Walked (auxiliaries w) s.now l x wet tape.old result tape.new }
{
    let (first, n) = body_walk::walk_reserved_among(s, l, x, 4, 0, 0, 2, tape, wet)?;
    let mut at: Walk = Ok(first);
    for i in 0..n {
        at = walk_auxiliary(s, l, at, w, tape, wet);
    }
    at
}

// From the letters of a language to its auxiliary files.
fn walk_language_fields(s: &[u8], l: usize, x: Walk, w: usize, tape: &mut [u64], wet: bool) -> Walk
    requires { w ≤ 7 }
    ensures { Walked (language_fields w) s.now l x wet tape.old result tape.new }
{
    let a = body_walk::walk_bytes(s, l, x, 3, 0x61, 0x7A, tape, wet);
    let b = body_walk::onward(body_walk::walk_reserved_among(s, l, a, 5, 0, 0, 4, tape, wet));
    let c = body_walk::walk_part(s, l, b, 2, tape, wet);
    let d = body_walk::walk_part(s, l, c, 1, tape, wet);
    walk_auxiliaries(s, l, d, w, tape, wet)
}

// "32-bit length", and the language's fields, which fill it.
fn walk_language(s: &[u8], l: usize, x: Walk, w: usize, tape: &mut [u64], wet: bool) -> Walk
    requires { w ≤ 7 }
    ensures { Walked (language w) s.now l x wet tape.old result tape.new }
{
    let (at, end) = body_walk::enter(s, l, x, 4)?;
    let a = walk_language_fields(s, end, Ok(at), w, tape, wet);
    body_walk::leave(a, end)
}

// "4 reserved, language count 4 bits (1 to 5); each language".
fn walk_languages(s: &[u8], l: usize, x: Walk, w: usize, tape: &mut [u64], wet: bool) -> Walk
    requires { w ≤ 7 }
    ensures { Walked (list_of (among 1 5 (reserved 4 0)) (language w)) s.now l x wet tape.old result tape.new }
{
    let (first, n) = body_walk::walk_reserved_among(s, l, x, 4, 0, 1, 5, tape, wet)?;
    let mut at: Walk = Ok(first);
    for i in 0..n {
        at = walk_language(s, l, at, w, tape, wet);
    }
    at
}

// The whole table: "4 reserved, 35 digits", the languages, the signature, and no byte left.
pub fn walk_content(s: &[u8], x: Walk, w: usize, tape: &mut [u64], wet: bool) -> Walk
    requires { w ≤ 7 }
    ensures { Walked (content w) s.now (length s.now) x wet tape.old result tape.new }
{
    let l = s.len();
    let a = body_walk::walk_identifier(s, l, x, tape, wet);
    let b = walk_languages(s, l, a, w, tape, wet);
    let c = body_walk::walk_part(s, l, b, 2, tape, wet);
    body_walk::finish(c, l)
}
