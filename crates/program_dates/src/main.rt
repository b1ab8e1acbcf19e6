// The date program: reads lines of day-first times from standard input, and writes the report of their fields and weekdays.
#![tactic(auto)]

use std::io;
use std::io::Write;

// One byte more than the longest input whose lines are read, to tell a longer one.
const ENOUGH: usize = program_printing::MOST_INPUT + 1;

fn main(rt: HostRuntime) -> io::Result<()> {
    let mut input = [0u8; ENOUGH];
    let got = program_reading::read_full(&mut rt.stdin(), &mut input)?;
    let mut out = [0u8; program_date_lines::MOST_OUTPUT];
    let length = program_date_lines::report(&input[..got], &mut out);
    rt.stdout().write_all(&out[..length])
}
