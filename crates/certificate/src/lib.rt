// No code: what a certificate table is. `certificate_reader` reads it, `certificate_writer` writes it, `certificate_fields` tells its fields.
#![tactic(auto)]
