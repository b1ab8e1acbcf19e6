// No code: what a content table is. `content_reader` reads it, `content_writer` writes it, `content_fields` tells its fields.
#![tactic(auto)]
