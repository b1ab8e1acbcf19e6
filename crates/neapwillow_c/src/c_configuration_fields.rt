// The fields of a configuration table and of its commands for C, asked for one by one.
ghost use Rattle.std.specs.Prelude.{◌≡◌};
ghost use Rattle.configuration_fields.specs.Asked.{command_count, command_part, signature_part, command_tag, command_content, clock_year, clock_month, clock_day, clock_hour, clock_minute, clock_second, code_address, code_resource, code_digit, frequency, symbol_rate, mapping, return_kind, return_address, period, volume, parameter_count, parameter, terminal_count, terminal, terminal_digit};
ghost use Rattle.c_answers.specs.Answers.{number_answer, part_answer};

#[unsafe(no_mangle)]
pub extern "C" fn nw_configuration_command_count(body: &[u8]) -> u64
    ensures { result ≡ number_answer (command_count body.now) }
{
    neapwillow::c_configuration_fields::nw_configuration_command_count(body)
}

#[unsafe(no_mangle)]
pub extern "C" fn nw_configuration_command(body: &[u8], i: u64) -> u64
    ensures { result ≡ part_answer (command_part body.now i) }
{
    neapwillow::c_configuration_fields::nw_configuration_command(body, i)
}

#[unsafe(no_mangle)]
pub extern "C" fn nw_configuration_signature(body: &[u8]) -> u64
    ensures { result ≡ part_answer (signature_part body.now) }
{
    neapwillow::c_configuration_fields::nw_configuration_signature(body)
}

#[unsafe(no_mangle)]
pub extern "C" fn nw_command_tag(body: &[u8], at: usize) -> u64
    ensures { result ≡ number_answer (command_tag body.now at) }
{
    neapwillow::c_configuration_fields::nw_command_tag(body, at)
}

#[unsafe(no_mangle)]
pub extern "C" fn nw_command_content(body: &[u8], at: usize) -> u64
    ensures { result ≡ part_answer (command_content body.now at) }
{
    neapwillow::c_configuration_fields::nw_command_content(body, at)
}

#[unsafe(no_mangle)]
pub extern "C" fn nw_command_clock_year(body: &[u8], at: usize) -> u64
    ensures { result ≡ number_answer (clock_year body.now at) }
{
    neapwillow::c_configuration_fields::nw_command_clock_year(body, at)
}

#[unsafe(no_mangle)]
pub extern "C" fn nw_command_clock_month(body: &[u8], at: usize) -> u64
    ensures { result ≡ number_answer (clock_month body.now at) }
{
    neapwillow::c_configuration_fields::nw_command_clock_month(body, at)
}

#[unsafe(no_mangle)]
pub extern "C" fn nw_command_clock_day(body: &[u8], at: usize) -> u64
    ensures { result ≡ number_answer (clock_day body.now at) }
{
    neapwillow::c_configuration_fields::nw_command_clock_day(body, at)
}

#[unsafe(no_mangle)]
pub extern "C" fn nw_command_clock_hour(body: &[u8], at: usize) -> u64
    ensures { result ≡ number_answer (clock_hour body.now at) }
{
    neapwillow::c_configuration_fields::nw_command_clock_hour(body, at)
}

#[unsafe(no_mangle)]
pub extern "C" fn nw_command_clock_minute(body: &[u8], at: usize) -> u64
    ensures { result ≡ number_answer (clock_minute body.now at) }
{
    neapwillow::c_configuration_fields::nw_command_clock_minute(body, at)
}

#[unsafe(no_mangle)]
pub extern "C" fn nw_command_clock_second(body: &[u8], at: usize) -> u64
    ensures { result ≡ number_answer (clock_second body.now at) }
{
    neapwillow::c_configuration_fields::nw_command_clock_second(body, at)
}

#[unsafe(no_mangle)]
pub extern "C" fn nw_command_code_address(body: &[u8], at: usize) -> u64
    ensures { result ≡ part_answer (code_address body.now at) }
{
    neapwillow::c_configuration_fields::nw_command_code_address(body, at)
}

#[unsafe(no_mangle)]
pub extern "C" fn nw_command_code_resource(body: &[u8], at: usize) -> u64
    ensures { result ≡ part_answer (code_resource body.now at) }
{
    neapwillow::c_configuration_fields::nw_command_code_resource(body, at)
}

#[unsafe(no_mangle)]
pub extern "C" fn nw_command_code_digit(body: &[u8], at: usize, j: u64) -> u64
    ensures { result ≡ number_answer (code_digit body.now at j) }
{
    neapwillow::c_configuration_fields::nw_command_code_digit(body, at, j)
}

#[unsafe(no_mangle)]
pub extern "C" fn nw_command_frequency(body: &[u8], at: usize) -> u64
    ensures { result ≡ number_answer (frequency body.now at) }
{
    neapwillow::c_configuration_fields::nw_command_frequency(body, at)
}

#[unsafe(no_mangle)]
pub extern "C" fn nw_command_symbol_rate(body: &[u8], at: usize) -> u64
    ensures { result ≡ number_answer (symbol_rate body.now at) }
{
    neapwillow::c_configuration_fields::nw_command_symbol_rate(body, at)
}

#[unsafe(no_mangle)]
pub extern "C" fn nw_command_mapping(body: &[u8], at: usize) -> u64
    ensures { result ≡ number_answer (mapping body.now at) }
{
    neapwillow::c_configuration_fields::nw_command_mapping(body, at)
}

#[unsafe(no_mangle)]
pub extern "C" fn nw_command_return_kind(body: &[u8], at: usize) -> u64
    ensures { result ≡ number_answer (return_kind body.now at) }
{
    neapwillow::c_configuration_fields::nw_command_return_kind(body, at)
}

#[unsafe(no_mangle)]
pub extern "C" fn nw_command_return_address(body: &[u8], at: usize) -> u64
    ensures { result ≡ part_answer (return_address body.now at) }
{
    neapwillow::c_configuration_fields::nw_command_return_address(body, at)
}

#[unsafe(no_mangle)]
pub extern "C" fn nw_command_period(body: &[u8], at: usize) -> u64
    ensures { result ≡ number_answer (period body.now at) }
{
    neapwillow::c_configuration_fields::nw_command_period(body, at)
}

#[unsafe(no_mangle)]
pub extern "C" fn nw_command_volume(body: &[u8], at: usize) -> u64
    ensures { result ≡ number_answer (volume body.now at) }
{
    neapwillow::c_configuration_fields::nw_command_volume(body, at)
}

#[unsafe(no_mangle)]
pub extern "C" fn nw_command_parameter_count(body: &[u8], at: usize) -> u64
    ensures { result ≡ number_answer (parameter_count body.now at) }
{
    neapwillow::c_configuration_fields::nw_command_parameter_count(body, at)
}

#[unsafe(no_mangle)]
pub extern "C" fn nw_command_parameter(body: &[u8], at: usize, i: u64) -> u64
    ensures { result ≡ number_answer (parameter body.now at i) }
{
    neapwillow::c_configuration_fields::nw_command_parameter(body, at, i)
}

#[unsafe(no_mangle)]
pub extern "C" fn nw_command_terminal_count(body: &[u8], at: usize) -> u64
    ensures { result ≡ number_answer (terminal_count body.now at) }
{
    neapwillow::c_configuration_fields::nw_command_terminal_count(body, at)
}

#[unsafe(no_mangle)]
pub extern "C" fn nw_command_terminal(body: &[u8], at: usize, i: u64) -> u64
    ensures { result ≡ part_answer (terminal body.now at i) }
{
    neapwillow::c_configuration_fields::nw_command_terminal(body, at, i)
}

#[unsafe(no_mangle)]
pub extern "C" fn nw_command_terminal_digit(body: &[u8], at: usize, i: u64, j: u64) -> u64
    ensures { result ≡ number_answer (terminal_digit body.now at i j) }
{
    neapwillow::c_configuration_fields::nw_command_terminal_digit(body, at, i, j)
}
