// The extension that goes with a message's identifier: the CRC-16 of its 140 bits.
#![tactic(auto)]

ghost use Rattle.std.specs.Prelude.{◌≡◌, ◌≤◌, length};
ghost use Rattle.body_extension.specs.Extension.{extension_at};

use body_formats::Number;

// The extension of the identifier at p, and the position after it, in a part that ends in the body.
pub fn extension_at(s: &[u8], l: usize, p: usize) -> Number
    requires { l ≤ length s.now }
    ensures { result ≡ extension_at s.now l p }
{
    let (a, n) = body_identifier::read_identifier(s, l, p)?;
    let q = p + 18;
    Ok((crc::crc16_after_four(&s[p..q]) as u64, q))
}
