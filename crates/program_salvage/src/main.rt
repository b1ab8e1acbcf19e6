// The salvage program: reads a capture from standard input, writes its good sections to standard output and the list of runs to standard error.
#![tactic(auto)]

use program_salvage_lines::MOST_OUTPUT;
use salvage::CAPTURE_MOST;
use std::io;
use std::io::Write;

// One byte more than the longest capture, to tell a longer one.
const ENOUGH: usize = CAPTURE_MOST + 1;

// Three numbers for each of the 10,083 runs that a capture can have.
const NUMBERS: usize = 30_249;

fn main(rt: HostRuntime) -> io::Result<()> {
    let mut capture = [0u8; ENOUGH];
    let got = program_reading::read_full(&mut rt.stdin(), &mut capture)?;
    let mut sections = [0u8; CAPTURE_MOST];
    let mut runs = [0u32; NUMBERS];
    match salvage::salvage(&capture[..got], &mut sections, &mut runs) {
        Ok((bytes, _runs)) => rt.stdout().write_all(&sections[..bytes])?,
        Err(_why) => {}
    }
    let mut list = [0u8; MOST_OUTPUT];
    let length = program_salvage_lines::report(&capture[..got], &mut list);
    rt.stderr().write_all(&list[..length])
}
