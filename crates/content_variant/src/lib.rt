// The content table's variants, by the bits of an auxiliary file's length: how wide it is, and what is asked of a body before its fields.
#![tactic(auto)]

ghost use Rattle.std.specs.Prelude.{◌≡◌, length};
ghost use Rattle.content_variant.specs.Variant.{width_of, opened};

use ground_numbers::{BODY_MOST, CONTENT_KIND};
use ground_refusal::Refusal;

// "a named variant, 24 or 32 bits", "19 for any other variant".
#[tactic(auto, unfolding(crate::specs::Variant::width_of))]
pub fn width_of(variant: u32) -> Result<usize, Refusal>
    ensures { result ≡ width_of variant }
{
    if variant == 24 {
        return Ok(3);
    }
    if variant == 32 {
        return Ok(4);
    }
    Err(Refusal::OutsideSet(0))
}

// The kind, the variant and the size, in this order: asked of a body before its fields.
pub fn open(kind: u32, variant: u32, s: &[u8]) -> Result<usize, Refusal>
    ensures { result ≡ opened kind variant (length s.now) }
{
    if kind != CONTENT_KIND {
        return Err(Refusal::OtherKind);
    }
    let w = width_of(variant)?;
    if BODY_MOST < s.len() {
        return Err(Refusal::TooLarge);
    }
    Ok(w)
}
