// No code: what a configuration table is. `configuration_reader` reads it, `configuration_writer` writes it, `configuration_fields` tells its fields.
#![tactic(auto)]
