// The questions of the slow gathering, a function for each: every one is answered by reading the kept strings from the beginning.
#![tactic(auto)]

ghost use Rattle.std.specs.Prelude.{[], ◌∷◌, ◌≡◌, ◌+◌, ◌≤◌, length, MatchOption};
ghost use Rattle.std.specs.Iterator.{YieldsFirstBy, item_count};
ghost use Rattle.ground_numbers.specs.Sizes.{payload_most};
ghost use Rattle.teaching_rows.specs.Rows.{strings_in};
ghost use Rattle.gathering_account.specs.Account.{heard, contents_of};
ghost use Rattle.gathering_account.specs.Latest.{section_of_table, sections_of_table};
ghost use Rattle.gathering_account.specs.Answering.{present, differs, agreeing};
ghost use Rattle.teaching_questions.specs.Questions.{said, section, clashes, Undisputed, absent_from, absent_count, carried, sections_left, StandsIn};

use section_reader::Heading;

// A section of a table, as it stands among the kept strings.
#[derive(Clone, Copy)]
struct Section<'a> {
    number: u8,
    payload: &'a [u8],
}

// ---- one byte string

// "A section is good if none of 1 to 7 applies, and current if 8 doesn't": what is heard of it?
pub fn hear(s: &[u8]) -> Option<Heading>
    ensures { result ≡ said (heard s.now) }
{
    let (h, _length) = section_reader::read_section(s).ok()?;
    if h.current { Some(h) } else { None }
}

// Which section of the table t is it, if it is one?
fn section_of(t: Heading, s: &[u8]) -> Option<Section>
    ensures { MatchOption result (section_of_table t (heard s.now) ≡ []) (λ x. section_of_table t (heard s.now) ≡ carried x ∷ []) }
{
    let h = hear(s)?;
    if !gathering_tables::same_table(t, h) {
        return None;
    }
    let end = s.len() - 4;
    Some(Section {
        number: h.number,
        payload: &s[8..end],
    })
}

// ---- the sections of a table: `rows` are the kept strings from the one on that began it

// Those still to come.
#[derive(Clone, Copy)]
struct Sections<'a> {
    table: Heading,
    rows: &'a [u8],
}

impl<'a> Iterator for Sections<'a> {
    type Item = Section<'a>;

    ghost next_gives = { YieldsFirstBy carried sections_left };

    ghost remaining = { item_count sections_left };

    fn next(&mut self) -> Option<Section<'a>> {
        while let Some((s, after)) = teaching_rows::split_row(self.rows) {
            self.rows = after;
            if let Some(x) = section_of(self.table, s) {
                return Some(x);
            }
        }
        None
    }
}

// Has the section of number k come?
pub fn has_come(rows: &[u8], t: Heading, k: u8) -> bool
    ensures { result ≡ present k (sections_of_table t (strings_in rows.now)) }
{
    Sections { table: t, rows }.any(|x| x.number == k)
}

// "same heading and number, other payload": has one of number k come with another payload?
pub fn differs_from_one(rows: &[u8], t: Heading, k: u8, payload: &[u8]) -> bool
    ensures { result ≡ differs (section k payload.now) (sections_of_table t (strings_in rows.now)) }
{
    Sections { table: t, rows }.any(|x| k == x.number
        && !ground_equal::same_bytes(payload, x.payload))
}

// "no two of one number differ": is it so?
pub fn agree(rows: &[u8], t: Heading) -> bool
    ensures { result ≡ agreeing (sections_of_table t (strings_in rows.now)) }
{
    let mut left = Sections { table: t, rows };
    while let Some(x) = left.next() {
        if differs_from_one(left.rows, left.table, x.number, x.payload) {
            return false;
        }
    }
    true
}

// Does the string contradict one of the others?
fn contradicts_one(t: Heading, s: &[u8], others: &[u8]) -> bool
    ensures { result ≡ clashes t s.now (strings_in others.now) }
{
    let Some(x) = section_of(t, s) else {
        return false;
    };
    differs_from_one(others, t, x.number, x.payload)
}

// Where does the first string stand that contradicts one of those before it? Where the rows end, if none does.
pub fn first_contradiction(rows: &[u8], t: Heading) -> usize
    ensures { Undisputed rows.now t result }
{
    let mut rest = rows;
    while let Some((s, after)) = teaching_rows::split_row(rest) {
        let passed = rows.len() - rest.len();
        if contradicts_one(t, s, &rows[..passed]) {
            return passed;
        }
        rest = after;
    }
    rows.len() - rest.len()
}

// The contents of number k, where they stand in the rows: empty, if it has not come.
pub fn contents_of(rows: &[u8], t: Heading, k: u8) -> &[u8]
    ensures { (result.now ≡ contents_of k (sections_of_table t (strings_in rows.now))) × (length result.now ≤ payload_most) ×
        StandsIn rows.now result.now }
{
    let Some(x) = Sections { table: t, rows }.find(|x| x.number == k) else {
        return &rows[..0];
    };
    x.payload
}

// ---- missing numbers

// Which number is the smallest that has not come? The one after the last, if all have. "The search for a missing number stops at the first
// one found."
pub fn smallest_missing(rows: &[u8], t: Heading) -> usize
    ensures { result ≡ absent_from 0 (t.last + 1) (sections_of_table t (strings_in rows.now)) }
{
    let count = t.last as usize + 1;
    for k in 0..count {
        if !has_come(rows, t, k as u8) {
            return k;
        }
    }
    count
}

// How many numbers have not come?
pub fn missing_count(rows: &[u8], t: Heading) -> usize
    ensures { result ≡ absent_count (t.last + 1) (sections_of_table t (strings_in rows.now)) }
{
    let count = t.last as usize + 1;
    let mut missing = 0;
    for k in 0..count {
        if !has_come(rows, t, k as u8) {
            missing += 1;
        }
    }
    missing
}
