// The message records of an index table for C, which lends the list.
ghost use Rattle.std.specs.Prelude.{◌≡◌, length};
ghost use Rattle.index_records.specs.Records.{body_recorded, recorded};
ghost use Rattle.c_answers.specs.Answers.{value_answer};

use index_records::Record;

pub fn nw_index_records(kind: u32, body: &[u8], list: &mut [Record]) -> u64
    ensures { (result ≡ value_answer (body_recorded kind body.now (length list.old))) × (list.new ≡ recorded kind body.now list.old) }
{
    c_answers::length_answer(index_records::read(kind, body, list))
}
