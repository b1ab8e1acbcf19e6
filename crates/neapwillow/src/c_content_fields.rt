// The fields of a content table for C, asked for one by one.
ghost use Rattle.std.specs.Prelude.{◌≡◌};
ghost use Rattle.content_fields.specs.Asked.{identifier_part, identifier_digit, extension, language_count, language_part, signature_part, letters_part, character_set, text_part, agency_part, auxiliary_count, variant_type, variant_part};
ghost use Rattle.c_answers.specs.Answers.{number_answer, part_answer};

pub fn nw_content_identifier(body: &[u8]) -> u64
    ensures { result ≡ part_answer (identifier_part body.now) }
{
    c_answers::part_answer(content_fields::identifier(body))
}

pub fn nw_content_identifier_digit(body: &[u8], i: u64) -> u64
    ensures { result ≡ number_answer (identifier_digit body.now i) }
{
    c_answers::number_answer(content_fields::identifier_digit(body, i))
}

pub fn nw_content_extension(body: &[u8]) -> u64
    ensures { result ≡ number_answer (extension body.now) }
{
    c_answers::number_answer(content_fields::extension(body))
}

pub fn nw_content_language_count(body: &[u8]) -> u64
    ensures { result ≡ number_answer (language_count body.now) }
{
    c_answers::number_answer(content_fields::language_count(body))
}

pub fn nw_content_language(body: &[u8], i: u64) -> u64
    ensures { result ≡ part_answer (language_part body.now i) }
{
    c_answers::part_answer(content_fields::language(body, i))
}

pub fn nw_content_signature(body: &[u8]) -> u64
    ensures { result ≡ part_answer (signature_part body.now) }
{
    c_answers::part_answer(content_fields::signature(body))
}

pub fn nw_language_letters(body: &[u8], at: usize, length: usize) -> u64
    ensures { result ≡ part_answer (letters_part body.now at length) }
{
    c_answers::part_answer(content_fields::letters(body, at, length))
}

pub fn nw_language_character_set(body: &[u8], at: usize, length: usize) -> u64
    ensures { result ≡ number_answer (character_set body.now at length) }
{
    c_answers::number_answer(content_fields::character_set(body, at, length))
}

pub fn nw_language_text(body: &[u8], at: usize, length: usize) -> u64
    ensures { result ≡ part_answer (text_part body.now at length) }
{
    c_answers::part_answer(content_fields::text(body, at, length))
}

pub fn nw_language_agency(body: &[u8], at: usize, length: usize) -> u64
    ensures { result ≡ part_answer (agency_part body.now at length) }
{
    c_answers::part_answer(content_fields::agency(body, at, length))
}

pub fn nw_language_auxiliary_count(body: &[u8], at: usize, length: usize) -> u64
    ensures { result ≡ number_answer (auxiliary_count body.now at length) }
{
    c_answers::number_answer(content_fields::auxiliary_count(body, at, length))
}

pub fn nw_language_auxiliary_type(
    variant: u32,
    body: &[u8],
    at: usize,
    length: usize,
    i: u64,
) -> u64
    ensures { result ≡ number_answer (variant_type variant body.now at length i) }
{
    c_answers::number_answer(content_fields::auxiliary_type(variant, body, at, length, i))
}

pub fn nw_language_auxiliary(variant: u32, body: &[u8], at: usize, length: usize, i: u64) -> u64
    ensures { result ≡ part_answer (variant_part variant body.now at length i) }
{
    c_answers::part_answer(content_fields::auxiliary(variant, body, at, length, i))
}
