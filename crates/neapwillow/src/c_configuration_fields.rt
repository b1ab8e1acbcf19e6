// The fields of a configuration table and of its commands for C, asked for one by one.
ghost use Rattle.std.specs.Prelude.{◌≡◌};
ghost use Rattle.configuration_fields.specs.Asked.{command_count, command_part, signature_part, command_tag, command_content, clock_year, clock_month, clock_day, clock_hour, clock_minute, clock_second, code_address, code_resource, code_digit, frequency, symbol_rate, mapping, return_kind, return_address, period, volume, parameter_count, parameter, terminal_count, terminal, terminal_digit};
ghost use Rattle.c_answers.specs.Answers.{number_answer, part_answer};

pub fn nw_configuration_command_count(body: &[u8]) -> u64
    ensures { result ≡ number_answer (command_count body.now) }
{
    c_answers::number_answer(configuration_fields::command_count(body))
}

pub fn nw_configuration_command(body: &[u8], i: u64) -> u64
    ensures { result ≡ part_answer (command_part body.now i) }
{
    c_answers::part_answer(configuration_fields::command(body, i))
}

pub fn nw_configuration_signature(body: &[u8]) -> u64
    ensures { result ≡ part_answer (signature_part body.now) }
{
    c_answers::part_answer(configuration_fields::signature(body))
}

pub fn nw_command_tag(body: &[u8], at: usize) -> u64
    ensures { result ≡ number_answer (command_tag body.now at) }
{
    c_answers::number_answer(configuration_fields::command_tag(body, at))
}

pub fn nw_command_content(body: &[u8], at: usize) -> u64
    ensures { result ≡ part_answer (command_content body.now at) }
{
    c_answers::part_answer(configuration_fields::command_content(body, at))
}

pub fn nw_command_clock_year(body: &[u8], at: usize) -> u64
    ensures { result ≡ number_answer (clock_year body.now at) }
{
    c_answers::number_answer(configuration_fields::clock_year(body, at))
}

pub fn nw_command_clock_month(body: &[u8], at: usize) -> u64
    ensures { result ≡ number_answer (clock_month body.now at) }
{
    c_answers::number_answer(configuration_fields::clock_month(body, at))
}

pub fn nw_command_clock_day(body: &[u8], at: usize) -> u64
    ensures { result ≡ number_answer (clock_day body.now at) }
{
    c_answers::number_answer(configuration_fields::clock_day(body, at))
}

pub fn nw_command_clock_hour(body: &[u8], at: usize) -> u64
    ensures { result ≡ number_answer (clock_hour body.now at) }
{
    c_answers::number_answer(configuration_fields::clock_hour(body, at))
}

pub fn nw_command_clock_minute(body: &[u8], at: usize) -> u64
    ensures { result ≡ number_answer (clock_minute body.now at) }
{
    c_answers::number_answer(configuration_fields::clock_minute(body, at))
}

pub fn nw_command_clock_second(body: &[u8], at: usize) -> u64
    ensures { result ≡ number_answer (clock_second body.now at) }
{
    c_answers::number_answer(configuration_fields::clock_second(body, at))
}

pub fn nw_command_code_address(body: &[u8], at: usize) -> u64
    ensures { result ≡ part_answer (code_address body.now at) }
{
    c_answers::part_answer(configuration_fields::code_address(body, at))
}

pub fn nw_command_code_resource(body: &[u8], at: usize) -> u64
    ensures { result ≡ part_answer (code_resource body.now at) }
{
    c_answers::part_answer(configuration_fields::code_resource(body, at))
}

pub fn nw_command_code_digit(body: &[u8], at: usize, j: u64) -> u64
    ensures { result ≡ number_answer (code_digit body.now at j) }
{
    c_answers::number_answer(configuration_fields::code_digit(body, at, j))
}

pub fn nw_command_frequency(body: &[u8], at: usize) -> u64
    ensures { result ≡ number_answer (frequency body.now at) }
{
    c_answers::number_answer(configuration_fields::frequency(body, at))
}

pub fn nw_command_symbol_rate(body: &[u8], at: usize) -> u64
    ensures { result ≡ number_answer (symbol_rate body.now at) }
{
    c_answers::number_answer(configuration_fields::symbol_rate(body, at))
}

pub fn nw_command_mapping(body: &[u8], at: usize) -> u64
    ensures { result ≡ number_answer (mapping body.now at) }
{
    c_answers::number_answer(configuration_fields::mapping(body, at))
}

pub fn nw_command_return_kind(body: &[u8], at: usize) -> u64
    ensures { result ≡ number_answer (return_kind body.now at) }
{
    c_answers::number_answer(configuration_fields::return_kind(body, at))
}

pub fn nw_command_return_address(body: &[u8], at: usize) -> u64
    ensures { result ≡ part_answer (return_address body.now at) }
{
    c_answers::part_answer(configuration_fields::return_address(body, at))
}

pub fn nw_command_period(body: &[u8], at: usize) -> u64
    ensures { result ≡ number_answer (period body.now at) }
{
    c_answers::number_answer(configuration_fields::period(body, at))
}

pub fn nw_command_volume(body: &[u8], at: usize) -> u64
    ensures { result ≡ number_answer (volume body.now at) }
{
    c_answers::number_answer(configuration_fields::volume(body, at))
}

pub fn nw_command_parameter_count(body: &[u8], at: usize) -> u64
    ensures { result ≡ number_answer (parameter_count body.now at) }
{
    c_answers::number_answer(configuration_fields::parameter_count(body, at))
}

pub fn nw_command_parameter(body: &[u8], at: usize, i: u64) -> u64
    ensures { result ≡ number_answer (parameter body.now at i) }
{
    c_answers::number_answer(configuration_fields::parameter(body, at, i))
}

pub fn nw_command_terminal_count(body: &[u8], at: usize) -> u64
    ensures { result ≡ number_answer (terminal_count body.now at) }
{
    c_answers::number_answer(configuration_fields::terminal_count(body, at))
}

pub fn nw_command_terminal(body: &[u8], at: usize, i: u64) -> u64
    ensures { result ≡ part_answer (terminal body.now at i) }
{
    c_answers::part_answer(configuration_fields::terminal(body, at, i))
}

pub fn nw_command_terminal_digit(body: &[u8], at: usize, i: u64, j: u64) -> u64
    ensures { result ≡ number_answer (terminal_digit body.now at i j) }
{
    c_answers::number_answer(configuration_fields::terminal_digit(body, at, i, j))
}
