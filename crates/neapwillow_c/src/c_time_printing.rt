// Times for people, for C: a time field printed day first, or as the word live, and both times of a form typed together.
ghost use Rattle.std.specs.Prelude.{◌≡◌, not, eqb};
ghost use Rattle.time_printing.specs.Printing.{start_text, end_text, printed_of, output_of};
ghost use Rattle.time_printing.specs.Typing.{typed_times};
ghost use Rattle.c_answers.specs.Answers.{value_answer, times_answer, fields_after};

#[unsafe(no_mangle)]
pub extern "C" fn nw_time_print_start(field: u64, offset: i32, out: &mut [u8]) -> u64
    ensures value { result ≡ value_answer (printed_of (start_text field offset) out.old) }
    ensures out_after { out.new ≡ output_of (start_text field offset) out.old }
{
    neapwillow::c_time_printing::nw_time_print_start(field, offset, out)
}

#[unsafe(no_mangle)]
pub extern "C" fn nw_time_print_end(field: u64, offset: i32, out: &mut [u8]) -> u64
    ensures value { result ≡ value_answer (printed_of (end_text field offset) out.old) }
    ensures out_after { out.new ≡ output_of (end_text field offset) out.old }
{
    neapwillow::c_time_printing::nw_time_print_end(field, offset, out)
}

// Any number but 0 asks for a live end.
#[unsafe(no_mangle)]
pub extern "C" fn nw_times_read_text(
    start: &[u8],
    end: &[u8],
    live: u32,
    offset: i32,
    fields: &mut [u64; 2],
) -> u64
    ensures value { result ≡ times_answer (typed_times start.now (not (eqb live 0)) end.now offset) }
    ensures fields_after { fields.new ≡ fields_after (typed_times start.now (not (eqb live 0)) end.now offset) fields.old }
{
    neapwillow::c_time_printing::nw_times_read_text(start, end, live, offset, fields)
}
