// The fields of a content table for C, asked for one by one.
ghost use Rattle.std.specs.Prelude.{◌≡◌};
ghost use Rattle.content_fields.specs.Asked.{identifier_part, identifier_digit, extension, language_count, language_part, signature_part, letters_part, character_set, text_part, agency_part, auxiliary_count, variant_type, variant_part};
ghost use Rattle.c_answers.specs.Answers.{number_answer, part_answer};

#[unsafe(no_mangle)]
pub extern "C" fn nw_content_identifier(body: &[u8]) -> u64
    ensures { result ≡ part_answer (identifier_part body.now) }
{
    neapwillow::c_content_fields::nw_content_identifier(body)
}

#[unsafe(no_mangle)]
pub extern "C" fn nw_content_identifier_digit(body: &[u8], i: u64) -> u64
    ensures { result ≡ number_answer (identifier_digit body.now i) }
{
    neapwillow::c_content_fields::nw_content_identifier_digit(body, i)
}

#[unsafe(no_mangle)]
pub extern "C" fn nw_content_extension(body: &[u8]) -> u64
    ensures { result ≡ number_answer (extension body.now) }
{
    neapwillow::c_content_fields::nw_content_extension(body)
}

#[unsafe(no_mangle)]
pub extern "C" fn nw_content_language_count(body: &[u8]) -> u64
    ensures { result ≡ number_answer (language_count body.now) }
{
    neapwillow::c_content_fields::nw_content_language_count(body)
}

#[unsafe(no_mangle)]
pub extern "C" fn nw_content_language(body: &[u8], i: u64) -> u64
    ensures { result ≡ part_answer (language_part body.now i) }
{
    neapwillow::c_content_fields::nw_content_language(body, i)
}

#[unsafe(no_mangle)]
pub extern "C" fn nw_content_signature(body: &[u8]) -> u64
    ensures { result ≡ part_answer (signature_part body.now) }
{
    neapwillow::c_content_fields::nw_content_signature(body)
}

#[unsafe(no_mangle)]
pub extern "C" fn nw_language_letters(body: &[u8], at: usize, length: usize) -> u64
    ensures { result ≡ part_answer (letters_part body.now at length) }
{
    neapwillow::c_content_fields::nw_language_letters(body, at, length)
}

#[unsafe(no_mangle)]
pub extern "C" fn nw_language_character_set(body: &[u8], at: usize, length: usize) -> u64
    ensures { result ≡ number_answer (character_set body.now at length) }
{
    neapwillow::c_content_fields::nw_language_character_set(body, at, length)
}

#[unsafe(no_mangle)]
pub extern "C" fn nw_language_text(body: &[u8], at: usize, length: usize) -> u64
    ensures { result ≡ part_answer (text_part body.now at length) }
{
    neapwillow::c_content_fields::nw_language_text(body, at, length)
}

#[unsafe(no_mangle)]
pub extern "C" fn nw_language_agency(body: &[u8], at: usize, length: usize) -> u64
    ensures { result ≡ part_answer (agency_part body.now at length) }
{
    neapwillow::c_content_fields::nw_language_agency(body, at, length)
}

#[unsafe(no_mangle)]
pub extern "C" fn nw_language_auxiliary_count(body: &[u8], at: usize, length: usize) -> u64
    ensures { result ≡ number_answer (auxiliary_count body.now at length) }
{
    neapwillow::c_content_fields::nw_language_auxiliary_count(body, at, length)
}

#[unsafe(no_mangle)]
pub extern "C" fn nw_language_auxiliary_type(
    variant: u32,
    body: &[u8],
    at: usize,
    length: usize,
    i: u64,
) -> u64
    ensures { result ≡ number_answer (variant_type variant body.now at length i) }
{
    neapwillow::c_content_fields::nw_language_auxiliary_type(variant, body, at, length, i)
}

#[unsafe(no_mangle)]
pub extern "C" fn nw_language_auxiliary(
    variant: u32,
    body: &[u8],
    at: usize,
    length: usize,
    i: u64,
) -> u64
    ensures { result ≡ part_answer (variant_part variant body.now at length i) }
{
    neapwillow::c_content_fields::nw_language_auxiliary(variant, body, at, length, i)
}
