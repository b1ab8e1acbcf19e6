// The rows of a teaching buffer: fed byte strings back to back, an eight-byte length before each.
#![tactic(auto)]

ghost use Rattle.std.specs.Prelude.{false, ◌≡◌, ◌+◌, ◌≤◌, length, MatchOption};
ghost use Rattle.ground_placing.specs.Placed.{placed};
ghost use Rattle.teaching_rows.specs.Rows.{length_bytes, row, row_begins, whole_rows, whole_in_use, FirstRow};

// The bytes of the length that stands before a string.
pub const LENGTH_BYTES: usize = 8;

// ---- reading

// The row that begins some bytes, where a whole one does: its string, and the bytes after it. For the questions.
pub fn split_row(bytes: &[u8]) -> Option<(&[u8], &[u8])>
    ensures { MatchOption result (row_begins bytes.now ≡ false) (λ p. FirstRow bytes.now p.0.now p.1.now) }
{
    let (length, rest) = bytes.split_first_chunk::<LENGTH_BYTES>()?;
    rest.split_at_checked(usize::from_be_bytes(*length))
}

// Are the bytes whole rows, and nothing else?
fn is_whole(rows: &[u8]) -> bool
    ensures { result ≡ whole_rows rows.now }
{
    let mut rest = rows;
    while let Some((_string, after)) = split_row(rest) {
        rest = after;
    }
    rest.is_empty()
}

// Are the bytes in use whole rows? They are not, where more are in use than there are. For feeding and handing out.
pub fn in_use(buffer: &[u8], used: usize) -> bool
    ensures { result ≡ whole_in_use buffer.now used }
{
    if buffer.len() < used {
        return false;
    }
    is_whole(&buffer[..used])
}

// ---- writing

// The row of a string into the buffer. For feeding.
pub fn put_row(buffer: &mut [u8], at: usize, s: &[u8])
    requires { at + (length_bytes + length s.now) ≤ length buffer.old }
    ensures { buffer.new ≡ placed buffer.old at (row s.now) }
{
    let length = s.len().to_be_bytes();
    ground_placing::copy_at(&length, buffer, at);
    ground_placing::copy_at(s, buffer, at + LENGTH_BYTES);
}
