// Which table a section belongs to: when two headings are of one table, and when one is a newer version of the other's.
#![tactic(auto)]

ghost use Rattle.std.specs.Prelude.{◌≡◌, ◌<◌};
ghost use Rattle.gathering_tables.specs.Tables.{steps_ahead, same_table, is_newer};

use section_reader::Heading;

// How many steps round the ring of 32 versions is the new one ahead of the held?
#[tactic(auto, unfolding(crate::specs::Tables::steps_ahead))]
fn steps_ahead(held: u8, new: u8) -> u8
    ensures { result ≡ steps_ahead held new }
{
    new.wrapping_sub(held) % 32
}

// Are they headings of one table? For feeding. Not a derived `==`: whether it is current and its number are a section's, not its table's.
#[tactic(auto, unfolding(crate::specs::Tables::same_table))]
pub fn same_table(held: Heading, new: Heading) -> bool
    ensures { result ≡ same_table held new }
{
    held.kind == new.kind
        && held.extension == new.extension
        && held.version == new.version
        && held.last == new.last
}

// Is the new one's table a newer version of the held one's? For feeding.
#[tactic(auto, unfolding(crate::specs::Tables::is_newer))]
pub fn is_newer(held: Heading, new: Heading) -> bool
    requires { (held.version < 256) × (new.version < 256) }
    ensures { result ≡ is_newer held new }
{
    let steps = steps_ahead(held.version as u8, new.version as u8);
    held.kind == new.kind && held.extension == new.extension && 1 <= steps && steps <= 15
}
