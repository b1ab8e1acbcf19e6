// A box's own resource code: whether it is one, its twelve bytes as a message holds them, and whether it is one of those that a message lists.
#![tactic(auto)]

ghost use Rattle.std.specs.Prelude.{◌≡◌, true, ◌+◌, ◌*◌, ◌%◌, ◌≤◌, length};
ghost use Rattle.body_formats.specs.Resource.{resource_bytes, resource};
ghost use Rattle.screen_code.specs.Code.{is_code, InBody, listed};

// The digits of a code, and the bytes that hold them.
const DIGITS: usize = 23;

const BYTES: usize = 12;

// Whether these are 23 bytes of one digit each.
pub fn is_code(code: &[u8]) -> bool
    ensures { result ≡ is_code code.now }
{
    if code.len() != DIGITS {
        return false;
    }
    code.iter().all(|digit| *digit < 10)
}

// Two digits in one byte.
fn pair(high: u8, low: u8) -> u8
    ensures { result ≡ high % 16 * 16 + low % 16 }
{
    high % 16 * 16 + low % 16
}

// The code as a message holds it: four ones and its digits, two to a byte.
pub fn pack(code: &[u8]) -> [u8; 12]
    requires { is_code code.now ≡ true }
    ensures { result ≡ resource.print code.now }
{
    let mut own = [0; BYTES];
    own[0] = pair(15, code[0]);
    for i in 1..BYTES {
        own[i] = pair(code[2 * i - 1], code[2 * i]);
    }
    own
}

// Whether the code is one of n that stand one after the other, the first at p.
pub fn is_listed(s: &[u8], p: usize, n: u64, own: &[u8; 12]) -> bool
    requires { InBody s.now p n × (length own.now ≡ resource_bytes) }
    ensures { result ≡ listed s.now p n own.now }
{
    let mut at = p;
    for _k in 0..n {
        if &s[at..at + BYTES] == own.as_slice() {
            return true;
        }
        at += BYTES;
    }
    false
}
