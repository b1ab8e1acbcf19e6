// A capture salvaged for C: its good sections, and the list of its runs.
ghost use Rattle.std.specs.Prelude.{◌≡◌, length};
ghost use Rattle.salvage.specs.Salvage.{salvage_of, output_after, list_after};
ghost use Rattle.c_answers.specs.Answers.{salvaged_answer};

pub fn nw_salvage(capture: &[u8], out: &mut [u8], runs: &mut [u32]) -> u64
    ensures value { result ≡ salvaged_answer (salvage_of capture.now (length out.old) (length runs.old)) }
    ensures out_after { out.new ≡ output_after capture.now out.old runs.old }
    ensures runs_after { runs.new ≡ list_after capture.now out.old runs.old }
{
    c_answers::salvaged_answer(salvage::salvage(capture, out, runs))
}
