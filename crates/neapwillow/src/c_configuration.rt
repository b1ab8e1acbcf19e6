// The configuration table for C: read, laid onto a form, written from one.
ghost use Rattle.std.specs.Prelude.{◌≡◌, length};
ghost use Rattle.body_formats.specs.Body.{body_read, body_laid, laid_tape, measured, body_written, output_written};
ghost use Rattle.configuration.specs.Configuration.{configuration_kind, configuration};
ghost use Rattle.c_answers.specs.Answers.{read_answer, value_answer};

pub fn nw_configuration_read(kind: u32, body: &[u8]) -> u64
    ensures { result ≡ read_answer (body_read configuration configuration_kind kind body.now) }
{
    c_answers::read_answer(configuration_reader::read(kind, body))
}

pub fn nw_configuration_lay(kind: u32, body: &[u8], tape: &mut [u64]) -> u64
    ensures value { result ≡ value_answer (body_laid configuration configuration_kind kind body.now (length tape.old)) }
    ensures tape_after { tape.new ≡ laid_tape configuration configuration_kind kind body.now tape.old }
{
    c_answers::length_answer(configuration_reader::lay(kind, body, tape))
}

pub fn nw_configuration_measure(pool: &[u8], tape: &[u64]) -> u64
    ensures { result ≡ value_answer (measured configuration pool.now tape.now) }
{
    c_answers::length_answer(configuration_writer::measure(pool, tape))
}

pub fn nw_configuration_write(pool: &[u8], tape: &[u64], out: &mut [u8]) -> u64
    ensures value { result ≡ value_answer (body_written configuration pool.now tape.now (length out.old)) }
    ensures out_after { out.new ≡ output_written configuration pool.now tape.now out.old }
{
    c_answers::length_answer(configuration_writer::write(pool, tape, out))
}
