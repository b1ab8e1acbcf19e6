// The content table of either variant for C: read with its extension, laid onto a form, written from one with its extension.
ghost use Rattle.std.specs.Prelude.{◌≡◌, length};
ghost use Rattle.content.specs.Content.{variant_read, variant_laid, variant_tape};
ghost use Rattle.content_writer.specs.Written.{variant_measured, variant_written, variant_output};
ghost use Rattle.c_answers.specs.Answers.{read_answer, value_answer, content_answer};

pub fn nw_content_read(kind: u32, variant: u32, extension: u32, body: &[u8]) -> u64
    ensures { result ≡ read_answer (variant_read kind variant extension body.now) }
{
    c_answers::read_answer(content_reader::read(kind, variant, extension, body))
}

pub fn nw_content_lay(kind: u32, variant: u32, body: &[u8], tape: &mut [u64]) -> u64
    ensures value { result ≡ value_answer (variant_laid kind variant body.now (length tape.old)) }
    ensures tape_after { tape.new ≡ variant_tape kind variant body.now tape.old }
{
    c_answers::length_answer(content_reader::lay(kind, variant, body, tape))
}

pub fn nw_content_measure(variant: u32, pool: &[u8], tape: &[u64]) -> u64
    ensures { result ≡ value_answer (variant_measured variant pool.now tape.now) }
{
    c_answers::length_answer(content_writer::measure(variant, pool, tape))
}

pub fn nw_content_write(variant: u32, pool: &[u8], tape: &[u64], out: &mut [u8]) -> u64
    ensures value { result ≡ content_answer (variant_written variant pool.now tape.now (length out.old)) }
    ensures out_after { out.new ≡ variant_output variant pool.now tape.now out.old }
{
    c_answers::content_answer(content_writer::write(variant, pool, tape, out))
}
