// What a field's format is, how a format is read, written and laid, and the answers' types: definitions and laws, and no functions.
#![tactic(auto)]

use ground_refusal::Refusal;

// ---- how long an identifier and a resource are, as specs/Identifier.antt and specs/Resource.antt have it

// Bytes of two digits, after one that a digit shares with the reserved bits; and all bytes.
pub const IDENTIFIER_PAIRS: usize = 17;

pub const IDENTIFIER_BYTES: usize = 1 + IDENTIFIER_PAIRS;

pub const RESOURCE_PAIRS: usize = 11;

pub const RESOURCE_BYTES: usize = 1 + RESOURCE_PAIRS;

// ---- the answers

// The position after what was read, or a refusal.
pub type Step = Result<usize, Refusal>;

// A number and the position after it, or a refusal.
pub type Number = Result<(u64, usize), Refusal>;

// Opaque bytes, where they begin and how many they are, or a refusal.
pub type Part = Result<(usize, usize), Refusal>;
