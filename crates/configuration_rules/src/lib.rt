// What commands may say, judged: clocks, and the least content of each command.
#![tactic(auto)]

pub mod clocks; // clocks.rt: days and times of day

ghost use Rattle.std.specs.Prelude.{◌≡◌};
ghost use Rattle.configuration.specs.Configuration.{least};

// The least content length of each tag up to 7.
const LEAST: [u64; 8] = [0, 7, 13, 10, 3, 5, 2, 2];

// The least content length of a tag: a command's content is not shorter.
pub fn least_content(tag: u64) -> u64
    ensures { result ≡ least tag }
{
    if 8 <= tag {
        return 0;
    }
    LEAST[tag as usize]
}
