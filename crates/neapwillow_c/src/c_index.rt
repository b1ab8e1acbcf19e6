// The index table for C: read, laid onto a form, written from one.
ghost use Rattle.std.specs.Prelude.{◌≡◌, length};
ghost use Rattle.body_formats.specs.Body.{body_read, body_laid, laid_tape, measured, body_written, output_written};
ghost use Rattle.index.specs.Index.{index_kind, index};
ghost use Rattle.c_answers.specs.Answers.{read_answer, value_answer};

#[unsafe(no_mangle)]
pub extern "C" fn nw_index_read(kind: u32, body: &[u8]) -> u64
    ensures { result ≡ read_answer (body_read index index_kind kind body.now) }
{
    neapwillow::c_index::nw_index_read(kind, body)
}

#[unsafe(no_mangle)]
pub extern "C" fn nw_index_lay(kind: u32, body: &[u8], tape: &mut [u64]) -> u64
    ensures value { result ≡ value_answer (body_laid index index_kind kind body.now (length tape.old)) }
    ensures tape_after { tape.new ≡ laid_tape index index_kind kind body.now tape.old }
{
    neapwillow::c_index::nw_index_lay(kind, body, tape)
}

#[unsafe(no_mangle)]
pub extern "C" fn nw_index_measure(pool: &[u8], tape: &[u64]) -> u64
    ensures { result ≡ value_answer (measured index pool.now tape.now) }
{
    neapwillow::c_index::nw_index_measure(pool, tape)
}

#[unsafe(no_mangle)]
pub extern "C" fn nw_index_write(pool: &[u8], tape: &[u64], out: &mut [u8]) -> u64
    ensures value { result ≡ value_answer (body_written index pool.now tape.now (length out.old)) }
    ensures out_after { out.new ≡ output_written index pool.now tape.now out.old }
{
    neapwillow::c_index::nw_index_write(pool, tape, out)
}
