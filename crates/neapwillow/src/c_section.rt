// Sections for C: one read, its length looked up, and a body cut.
ghost use Rattle.std.specs.Prelude.{◌≡◌};
ghost use Rattle.section_reader.specs.Section.{read_section, stated_length};
ghost use Rattle.section_cutter.specs.Cutting.{counted_of, cut_answer, cut_output};
ghost use Rattle.c_answers.specs.Answers.{section_answer, value_answer};

pub fn nw_section_read(s: &[u8]) -> u64
    ensures { result ≡ section_answer (read_section s.now) }
{
    c_answers::section_answer(section_reader::read_section(s))
}

pub fn nw_section_length(s: &[u8]) -> u64
    ensures { result ≡ value_answer (stated_length s.now) }
{
    c_answers::length_answer(section_reader::stated_length(s))
}

pub fn nw_section_count(length: usize) -> u64
    ensures { result ≡ value_answer (counted_of length) }
{
    c_answers::length_answer(section_cutter::section_count(length))
}

pub fn nw_section_cut(
    body: &[u8],
    kind: u32,
    extension: u32,
    version: u32,
    number: u32,
    out: &mut [u8],
) -> u64
    ensures value { result ≡ value_answer (cut_answer body.now kind extension version number out.old) }
    ensures out_after { out.new ≡ cut_output body.now kind extension version number out.old }
{
    c_answers::length_answer(section_cutter::cut_section(
        body, kind, extension, version, number, out,
    ))
}
