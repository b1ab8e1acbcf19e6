// The section program: reads one section from standard input, and writes the line of its number and its payload's length.
#![tactic(auto)]

use std::io;
use std::io::Write;

// One byte more than the longest input that is read, to tell a longer one.
const ENOUGH: usize = program_printing::MOST_INPUT + 1;

fn main(rt: HostRuntime) -> io::Result<()> {
    let mut input = [0u8; ENOUGH];
    let got = program_reading::read_full(&mut rt.stdin(), &mut input)?;
    let mut out = [0u8; program_section_line::MOST_OUTPUT];
    let length = program_section_line::line(&input[..got], &mut out);
    rt.stdout().write_all(&out[..length])
}
