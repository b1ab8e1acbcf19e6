// The certificate table for C.
ghost use Rattle.std.specs.Prelude.{◌≡◌, length};
ghost use Rattle.body_formats.specs.Body.{body_read, body_laid, laid_tape, measured, body_written, output_written};
ghost use Rattle.certificate.specs.Certificate.{certificate_kind, certificate};
ghost use Rattle.certificate_fields.specs.Asked.{authorization_count, authorization_part, certificate_count, certificate_part, signature_part};
ghost use Rattle.c_answers.specs.Answers.{read_answer, number_answer, part_answer, value_answer};

pub fn nw_certificate_read(kind: u32, body: &[u8]) -> u64
    ensures { result ≡ read_answer (body_read certificate certificate_kind kind body.now) }
{
    c_answers::read_answer(certificate_reader::read(kind, body))
}

pub fn nw_certificate_authorization_count(body: &[u8]) -> u64
    ensures { result ≡ number_answer (authorization_count body.now) }
{
    c_answers::number_answer(certificate_fields::authorization_count(body))
}

pub fn nw_certificate_authorization(body: &[u8], i: u64) -> u64
    ensures { result ≡ part_answer (authorization_part body.now i) }
{
    c_answers::part_answer(certificate_fields::authorization(body, i))
}

pub fn nw_certificate_certificate_count(body: &[u8]) -> u64
    ensures { result ≡ number_answer (certificate_count body.now) }
{
    c_answers::number_answer(certificate_fields::certificate_count(body))
}

pub fn nw_certificate_certificate(body: &[u8], i: u64) -> u64
    ensures { result ≡ part_answer (certificate_part body.now i) }
{
    c_answers::part_answer(certificate_fields::certificate(body, i))
}

pub fn nw_certificate_signature(body: &[u8]) -> u64
    ensures { result ≡ part_answer (signature_part body.now) }
{
    c_answers::part_answer(certificate_fields::signature(body))
}

pub fn nw_certificate_measure(pool: &[u8], tape: &[u64]) -> u64
    ensures { result ≡ value_answer (measured certificate pool.now tape.now) }
{
    c_answers::length_answer(certificate_writer::measure(pool, tape))
}

pub fn nw_certificate_write(pool: &[u8], tape: &[u64], out: &mut [u8]) -> u64
    ensures value { result ≡ value_answer (body_written certificate pool.now tape.now (length out.old)) }
    ensures out_after { out.new ≡ output_written certificate pool.now tape.now out.old }
{
    c_answers::length_answer(certificate_writer::write(pool, tape, out))
}

pub fn nw_certificate_lay(kind: u32, body: &[u8], tape: &mut [u64]) -> u64
    ensures value { result ≡ value_answer (body_laid certificate certificate_kind kind body.now (length tape.old)) }
    ensures tape_after { tape.new ≡ laid_tape certificate certificate_kind kind body.now tape.old }
{
    c_answers::length_answer(certificate_reader::lay(kind, body, tape))
}
