// Asking the slow gathering: its table's heading, what is missing, and the body, each worked out from the kept strings.
#![tactic(auto)]

ghost use Rattle.std.specs.Prelude.{Ok, ◌≡◌, ◌+◌, ◌≤◌, length, MatchResult};
ghost use Rattle.ground_placing.specs.Placed.{placed};
ghost use Rattle.gathering_hand_out.specs.Handing.{out_by};
ghost use Rattle.gathering_account.specs.Account.{in_order};
ghost use Rattle.gathering_account.specs.Latest.{sections_of_table};
ghost use Rattle.teaching_rows.specs.Rows.{strings_in};
ghost use Rattle.teaching_hand_out.specs.Asking.{lacking_table, handed_table, heading_of, lacking_of, handed_of, out_after, Begun, Unbegun};

use ground_refusal::Refusal;
use section_reader::Heading;

// ---- the body: `rows` are the strings of the fixed table t

// How long is the body? The contents of the numbers 0 to last, together.
fn body_length(rows: &[u8], t: Heading) -> usize
    ensures { result ≡ length (in_order (t.last + 1) (sections_of_table t (strings_in rows.now))) }
{
    let mut n = 0;
    for k in 0..t.last as usize + 1 {
        n += teaching_questions::contents_of(rows, t, k as u8).len();
    }
    n
}

// "their contents in number order", at the start of the output.
fn join(rows: &[u8], t: Heading, out: &mut [u8])
    requires { length (in_order (t.last + 1) (sections_of_table t (strings_in rows.now))) ≤ length out.old }
    ensures { out.new ≡ placed out.old 0 (in_order (t.last + 1) (sections_of_table t (strings_in rows.now))) }
{
    let mut n = 0;
    for k in 0..t.last as usize + 1 {
        let part = teaching_questions::contents_of(rows, t, k as u8);
        ground_placing::copy_at(part, out, n);
        n += part.len();
    }
}

// 11, 13 with the smallest missing number, 21, or the body.
fn hand_table(rows: &[u8], t: Heading, out: &mut [u8]) -> Result<usize, Refusal>
    ensures { (result ≡ handed_table t (sections_of_table t (strings_in rows.now)) (length out.old)) ×
        (out.new ≡ out_by (in_order (t.last + 1) (sections_of_table t (strings_in rows.now))) out.old result) }
{
    if !teaching_questions::agree(rows, t) {
        return Err(Refusal::Contradiction);
    }
    let k = teaching_questions::smallest_missing(rows, t);
    if k <= t.last as usize {
        return Err(Refusal::Missing(k));
    }
    let n = body_length(rows, t);
    if out.len() < n {
        return Err(Refusal::OutputTooSmall);
    }
    join(rows, t, out);
    Ok(n)
}

// ---- what is kept

// The fixed table, and the strings from the one on that began it. 12, then 13 if nothing begun.
fn begun(buffer: &[u8], used: usize, store: usize) -> Result<(Heading, &[u8]), Refusal>
    ensures { MatchResult result (λ p. Begun buffer.now used store p.0 p.1.now) (λ r. Unbegun buffer.now used store r) }
{
    if !teaching_rows::in_use(buffer, used) {
        return Err(Refusal::ImpossibleState);
    }
    let rows = &buffer[..used];
    let (t, from) = teaching_table::fixed_table(rows, store).ok_or(Refusal::Missing(0))?;
    Ok((t, &rows[from..]))
}

// The body of what is kept is handed out, or the first rule that forbids it is told: 12, 13 if nothing begun, 11, 13, 21. What is kept stays.
pub fn hand_out(buffer: &[u8], used: usize, store: usize, out: &mut [u8]) -> Result<usize, Refusal>
    ensures { (result ≡ handed_of buffer.now used store out.old) ×
        (out.new ≡ out_after buffer.now used store out.old) }
{
    let (t, rows) = begun(buffer, used, store)?;
    hand_table(rows, t, out)
}

// The heading of the fixed table: of the latest takeover, not of the first section. 12, then 13 if nothing begun.
pub fn heading(buffer: &[u8], used: usize, store: usize) -> Result<Heading, Refusal>
    ensures { result ≡ heading_of buffer.now used store }
{
    let (t, _rows) = begun(buffer, used, store)?;
    Ok(t)
}

// How many are missing and which is the smallest: `rows` are the strings of the fixed table t. What came after a contradiction is not counted.
fn missing_of(rows: &[u8], t: Heading) -> (usize, usize)
    ensures { Ok result ≡ lacking_table t (sections_of_table t (strings_in rows.now)) }
{
    let end = teaching_questions::first_contradiction(rows, t);
    let count = teaching_questions::missing_count(&rows[..end], t);
    let smallest = teaching_questions::smallest_missing(&rows[..end], t);
    (count, smallest)
}

// How many sections of the fixed table are missing, and which is the smallest. 12, 13 if nothing begun.
pub fn missing(buffer: &[u8], used: usize, store: usize) -> Result<(usize, usize), Refusal>
    ensures { result ≡ lacking_of buffer.now used store }
{
    let (t, rows) = begun(buffer, used, store)?;
    Ok(missing_of(rows, t))
}
