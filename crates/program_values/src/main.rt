// The values program: writes the report of document 01's values, each with the library's answer. It reads nothing.
#![tactic(auto)]

use std::io;
use std::io::Write;

fn main(rt: HostRuntime) -> io::Result<()> {
    let mut out = [0u8; program_value_lines::MOST_OUTPUT];
    let length = program_value_lines::report(&mut out);
    rt.stdout().write_all(&out[..length])
}
