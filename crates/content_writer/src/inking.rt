// The bytes of a content table from a form that was judged, from its auxiliary files up to the whole: each is one field of the format of its
// name, and w is the width in bytes of an auxiliary file's length.
ghost use Rattle.std.specs.Prelude.{◌+◌, length};
ghost use Rattle.body_formats.specs.Format.{◌▷◌, among, reserved, list_of, opaque};
ghost use Rattle.body_ink.specs.Inked.{Ready, Inked, Whole};
ghost use Rattle.content.specs.Content.{auxiliary, auxiliaries, language_fields, language, content};

use body_formats::IDENTIFIER_PAIRS;
use body_ink::Mark;

// "type 8 (free), length 24, data", the length of w bytes, three entries: where it ends.
fn ink_auxiliary(pool: &[u8], tape: &[u64], k: usize, w: usize, out: &mut [u8], at: usize) -> usize
    requires { Ready (auxiliary w) pool.now tape.now at k (length out.old) }
    ensures { Inked (auxiliary w) pool.now tape.now at k out.old result (k + 3) out.new }
{
    body_ink::number(out, at, 1, tape[k]);
    body_ink::part(pool, tape, k + 1, w, out, at + 1)
}

// "4 reserved, auxiliary count 4 bits (0 to 2)", and each of them.
fn ink_auxiliaries(pool: &[u8], tape: &[u64], k: usize, w: usize, out: &mut [u8], at: usize) -> Mark
    requires { Ready (auxiliaries w) pool.now tape.now at k (length out.old) }
    ensures { Inked (auxiliaries w) pool.now tape.now at k out.old result.at result.entry out.new }
{
    let n = tape[k];
    body_ink::number(out, at, 1, 0xF0 + n);
    let mut past = Mark {
        at: at + 1,
        entry: k + 1,
    };
    for _ in 0..n {
        past = Mark {
            at: ink_auxiliary(pool, tape, past.entry, w, out, past.at),
            entry: past.entry + 3,
        };
    }
    past
}

// "16-bit text length, text, 8-bit agency length, agency", and auxiliary files.
fn ink_language_parts(
    pool: &[u8],
    tape: &[u64],
    k: usize,
    w: usize,
    out: &mut [u8],
    at: usize,
) -> Mark
    requires { Ready (opaque 2 ▷ (opaque 1 ▷ auxiliaries w)) pool.now tape.now at k (length out.old) }
    ensures { Inked (opaque 2 ▷ (opaque 1 ▷ auxiliaries w)) pool.now tape.now at k out.old result.at result.entry out.new }
{
    let text = body_ink::part(pool, tape, k, 2, out, at);
    let agency = body_ink::part(pool, tape, k + 2, 1, out, text);
    ink_auxiliaries(pool, tape, k + 4, w, out, agency)
}

// "three letters a to z, 5 reserved, character set 3 bits (0 to 4)", text, agency and auxiliary files.
fn ink_language_fields(
    pool: &[u8],
    tape: &[u64],
    k: usize,
    w: usize,
    out: &mut [u8],
    at: usize,
) -> Mark
    requires { Ready (language_fields w) pool.now tape.now at k (length out.old) }
    ensures { Inked (language_fields w) pool.now tape.now at k out.old result.at result.entry out.new }
{
    body_ink::copy(pool, tape[k] as usize, 3, out, at);
    body_ink::number(out, at + 3, 1, 0xF8 + tape[k + 2]);
    ink_language_parts(pool, tape, k + 3, w, out, at + 4)
}

// "32-bit length", which the fields fill.
fn ink_language(pool: &[u8], tape: &[u64], k: usize, w: usize, out: &mut [u8], at: usize) -> Mark
    requires { Ready (language w) pool.now tape.now at k (length out.old) }
    ensures { Inked (language w) pool.now tape.now at k out.old result.at result.entry out.new }
{
    let past = ink_language_fields(pool, tape, k, w, out, at + 4);
    body_ink::number(out, at, 4, (past.at - at - 4) as u64);
    past
}

// "4 reserved, language count 4 bits (1 to 5); each language".
fn ink_languages(pool: &[u8], tape: &[u64], k: usize, w: usize, out: &mut [u8], at: usize) -> Mark
    requires { Ready (list_of (among 1 5 (reserved 4 0)) (language w)) pool.now tape.now at k (length out.old) }
    ensures { Inked (list_of (among 1 5 (reserved 4 0)) (language w)) pool.now tape.now at k out.old result.at result.entry out.new }
{
    let n = tape[k];
    body_ink::number(out, at, 1, 0xF0 + n);
    let mut past = Mark {
        at: at + 1,
        entry: k + 1,
    };
    for _ in 0..n {
        past = ink_language(pool, tape, past.entry, w, out, past.at);
    }
    past
}

// The whole table: its identifier, its languages and the signature.
pub fn ink_content(pool: &[u8], tape: &[u64], w: usize, out: &mut [u8])
    requires { Ready (content w) pool.now tape.now 0 0 (length out.old) }
    ensures { Whole (content w) pool.now tape.now out.old out.new }
{
    body_ink::digits(pool, tape, 0, IDENTIFIER_PAIRS, out, 0);
    let past = ink_languages(pool, tape, 2, w, out, 18);
    body_ink::part(pool, tape, past.entry, 2, out, past.at);
}
