// What the commands nw-dates, nw-section and nw-salvage call from C: the report, the line and the list of runs that the programs write.
// Each function is the one of its name in `c_commands`, with its clauses.
#![tactic(auto)]

ghost use Rattle.std.specs.Prelude.{◌≡◌, ◌++◌, length, drop};
ghost use Rattle.program_date_lines.specs.Report.{report_of};
ghost use Rattle.program_section_line.specs.Line.{line_of};
ghost use Rattle.program_salvage_lines.specs.Report.{report_of as runs_text_of};

// The output is as long as the longest report.
#[unsafe(no_mangle)]
pub extern "C" fn nw_dates_report(
    input: &[u8],
    out: &mut [u8; program_date_lines::MOST_OUTPUT],
) -> usize
    ensures length { result ≡ length (report_of input.now) }
    ensures bytes { out.new ≡ report_of input.now ++ drop result out.old }
{
    c_commands::nw_dates_report(input, out)
}

// The output is as long as the longest line.
#[unsafe(no_mangle)]
pub extern "C" fn nw_section_line(
    input: &[u8],
    out: &mut [u8; program_section_line::MOST_OUTPUT],
) -> usize
    ensures length { result ≡ length (line_of input.now) }
    ensures bytes { out.new ≡ line_of input.now ++ drop result out.old }
{
    c_commands::nw_section_line(input, out)
}

// The output is as long as the longest list.
#[unsafe(no_mangle)]
pub extern "C" fn nw_salvage_list(
    capture: &[u8],
    out: &mut [u8; program_salvage_lines::MOST_OUTPUT],
) -> usize
    ensures length { result ≡ length (runs_text_of capture.now) }
    ensures bytes { out.new ≡ runs_text_of capture.now ++ drop result out.old }
{
    c_commands::nw_salvage_list(capture, out)
}
