// The bytes of a certificate table from a form that was judged, from its lists up to the whole.
ghost use Rattle.std.specs.Prelude.{length};
ghost use Rattle.body_ink.specs.Inked.{Ready, Inked, Whole};
ghost use Rattle.certificate.specs.Certificate.{certificate, parts};

use body_ink::Mark;

// A list of parts after its count.
fn ink_list(pool: &[u8], tape: &[u64], k: usize, w: usize, out: &mut [u8], at: usize) -> Mark
    requires { Ready (parts w) pool.now tape.now at k (length out.old) }
    ensures { Inked (parts w) pool.now tape.now at k out.old result.at result.entry out.new }
{
    let n = tape[k];
    body_ink::number(out, at, 1, n);
    let mut past = Mark {
        at: at + 1,
        entry: k + 1,
    };
    for _ in 0..n {
        past = Mark {
            at: body_ink::part(pool, tape, past.entry, w, out, past.at),
            entry: past.entry + 2,
        };
    }
    past
}

// The three fields.
pub fn ink_certificate(pool: &[u8], tape: &[u64], out: &mut [u8])
    requires { Ready certificate pool.now tape.now 0 0 (length out.old) }
    ensures { Whole certificate pool.now tape.now out.old out.new }
{
    let a = ink_list(pool, tape, 0, 2, out, 0);
    let b = ink_list(pool, tape, a.entry, 1, out, a.at);
    body_ink::part(pool, tape, b.entry, 2, out, b.at);
}
