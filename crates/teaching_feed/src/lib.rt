// Feeding the slow gathering: the answer is worked out from the strings kept before it, and the string is kept whatever the answer.
#![tactic(auto)]

ghost use Rattle.std.specs.Prelude.{◌≡◌, ◌≤◌, ◌<◌, length};
ghost use Rattle.section_reader.specs.Section.{payload_of};
ghost use Rattle.gathering_state.specs.State.{has_room};
ghost use Rattle.gathering_account.specs.Latest.{sections_of_table};
ghost use Rattle.gathering_account.specs.Answering.{answer_of_table, answer_of_first, answer_of_good, answer_to};
ghost use Rattle.teaching_rows.specs.Rows.{strings_in};
ghost use Rattle.teaching_questions.specs.Questions.{section};
ghost use Rattle.teaching_table.specs.Table.{account_in};
ghost use Rattle.teaching_feed.specs.Feeding.{row_fits, taught_of, buffer_after};

use gathering_feed::Answer;
use ground_refusal::Refusal;
use section_reader::Heading;
use teaching_rows::LENGTH_BYTES;

// The answer, and how many bytes are in use after it.
#[derive(Clone, Copy)]
pub struct Taught {
    pub answer: Result<Answer, Refusal>,
    pub used: usize,
}

// ---- the answer: `rows` are the strings kept before

// A section that begins its table: 10, or it is taken.
fn answer_of_first(store: usize, h: Heading) -> Result<Answer, Refusal>
    ensures { result ≡ answer_of_first (has_room store) h }
{
    if !gathering_state::has_room(store, h.last) {
        return Err(Refusal::StoreTooShort);
    }
    Ok(Answer::Taken)
}

// A section of the fixed table t, whose strings are `rows`: 11, held already, or taken.
fn answer_of_table(rows: &[u8], t: Heading, k: u8, s: &[u8]) -> Result<Answer, Refusal>
    requires { 12 ≤ length s.now }
    ensures { result ≡ answer_of_table (sections_of_table t (strings_in rows.now)) (section k (payload_of s.now)) }
{
    let end = s.len() - 4;
    if teaching_questions::differs_from_one(rows, t, k, &s[8..end]) {
        return Err(Refusal::Contradiction);
    }
    if !teaching_questions::agree(rows, t) {
        return Err(Refusal::Contradiction);
    }
    if teaching_questions::has_come(rows, t, k) {
        return Ok(Answer::HeldAlready);
    }
    Ok(Answer::Taken)
}

// A good, current section: 9, 10, 11, in this order.
fn answer_of_good(rows: &[u8], store: usize, h: Heading, s: &[u8]) -> Result<Answer, Refusal>
    requires { (h.version < 256) × (12 ≤ length s.now) }
    ensures { result ≡ answer_of_good (has_room store) (account_in store rows.now) h (payload_of s.now) }
{
    let Some((t, from)) = teaching_table::fixed_table(rows, store) else {
        return answer_of_first(store, h);
    };
    if gathering_tables::is_newer(t, h) {
        return answer_of_first(store, h);
    }
    if !gathering_tables::same_table(t, h) {
        return Err(Refusal::OtherHeading);
    }
    answer_of_table(&rows[from..], t, h.number, s)
}

// Any byte string: 1 to 7, then 8, then the rest.
fn answer_to(rows: &[u8], store: usize, s: &[u8]) -> Result<Answer, Refusal>
    ensures { result ≡ answer_to (has_room store) (account_in store rows.now) s.now }
{
    let (h, _length) = section_reader::read_section(s)?;
    if !h.current {
        return Err(Refusal::NotCurrent);
    }
    answer_of_good(rows, store, h, s)
}

// ---- keeping

// Does the row of a string of n bytes fit a buffer of so many bytes after those in use? No sum is made that could be too large.
fn row_fits(room: usize, used: usize, n: usize) -> bool
    ensures { result ≡ row_fits room used n }
{
    let left = room.saturating_sub(used);
    LENGTH_BYTES <= left && n <= left - LENGTH_BYTES
}

// One byte string is fed. Its row stands after the bytes in use, whatever the answer, but after 37 and 12, which change nothing.
pub fn feed(buffer: &mut [u8], used: usize, store: usize, s: &[u8]) -> Taught
    ensures value { result ≡ taught_of buffer.old used store s.now }
    ensures buffer_after { buffer.new ≡ buffer_after buffer.old used s.now }
{
    if !row_fits(buffer.len(), used, s.len()) {
        return Taught {
            answer: Err(Refusal::TeachingBufferFull),
            used,
        };
    }
    if !teaching_rows::in_use(buffer, used) {
        return Taught {
            answer: Err(Refusal::ImpossibleState),
            used,
        };
    }
    let answer = answer_to(&buffer[..used], store, s);
    teaching_rows::put_row(buffer, used, s);
    Taught {
        answer,
        used: used + LENGTH_BYTES + s.len(),
    }
}
