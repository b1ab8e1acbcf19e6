// Sections for C: one read, its length looked up, and a body cut.
ghost use Rattle.std.specs.Prelude.{◌≡◌};
ghost use Rattle.section_reader.specs.Section.{read_section, stated_length};
ghost use Rattle.section_cutter.specs.Cutting.{counted_of, cut_answer, cut_output};
ghost use Rattle.c_answers.specs.Answers.{section_answer, value_answer};

#[unsafe(no_mangle)]
pub extern "C" fn nw_section_read(s: &[u8]) -> u64
    ensures { result ≡ section_answer (read_section s.now) }
{
    neapwillow::c_section::nw_section_read(s)
}

#[unsafe(no_mangle)]
pub extern "C" fn nw_section_length(s: &[u8]) -> u64
    ensures { result ≡ value_answer (stated_length s.now) }
{
    neapwillow::c_section::nw_section_length(s)
}

#[unsafe(no_mangle)]
pub extern "C" fn nw_section_count(length: usize) -> u64
    ensures { result ≡ value_answer (counted_of length) }
{
    neapwillow::c_section::nw_section_count(length)
}

#[unsafe(no_mangle)]
pub extern "C" fn nw_section_cut(
    body: &[u8],
    kind: u32,
    extension: u32,
    version: u32,
    number: u32,
    out: &mut [u8],
) -> u64
    ensures value { result ≡ value_answer (cut_answer body.now kind extension version number out.old) }
    ensures out_after { out.new ≡ cut_output body.now kind extension version number out.old }
{
    neapwillow::c_section::nw_section_cut(body, kind, extension, version, number, out)
}
