// The input of a program, read into a lent buffer. For the programs alone, not offered by itself.
#![tactic(auto)]

ghost use Rattle.std.specs.Prelude.{◌≤◌, ◌<◌, length, take, IfOk};
ghost use Rattle.std.specs.Io.KnownBytes.{Consumes, IsAtEnd};

use std::io::{Read, Result};

// Reads until the buffer is full, the input ends or a read fails, and answers how many bytes were read. By hand: `read_exact` fails
// where the input ends, `read_to_end` needs a heap.
pub fn read_full<R: Read>(from: &mut R, into: &mut [u8]) -> Result<usize>
    ensures room { IfOk result (λ n. n ≤ length into.new) }
    ensures bytes { IfOk result (λ n. Consumes (R.remaining from.old) (R.remaining from.new) (take n into.new)) }
    ensures end { IfOk result (λ n. n < length into.new → IsAtEnd (R.remaining from.new)) }
{
    let mut length = 0;
    while length < into.len() {
        let more = from.read(&mut into[length..])?;
        if more == 0 {
            break;
        }
        length += more;
    }
    Ok(length)
}
