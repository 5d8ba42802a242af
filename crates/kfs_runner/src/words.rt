// What the words of the program ask for.
ghost use Rattle.std.specs.Prelude.{◌≡◌};
ghost use Rattle.kfs_runner.specs.Words.{load_of, task_of, IsWithin};

use kfs_script::read_number;
use kv_base::Text;

/// What the words of the program ask for.
#[derive(Clone, Copy, Debug, PartialEq, Eq)]
pub enum Task {
    /// They are no command.
    Nothing,
    /// A script is run.
    Run,
    /// The load of a seed is made, of so many steps on a device of so many blocks.
    Make { seed: u64, count: u32, blocks: u16 },
}

// The greatest number of steps of a load, and of blocks of a device.
const MOST_STEPS: u64 = 20_000;

const MOST_BLOCKS: u64 = 2_048;

// The load that three numbers ask for.
#[tactic(auto, unfolding(crate::specs::Words::load_of))]
fn load_of(seed: &[u8], count: &[u8], blocks: &[u8]) -> Task
    ensures task { result ≡ load_of seed.now count.now blocks.now }
    ensures within { IsWithin result }
{
    let Some(seed) = read_number(u64::MAX, seed) else {
        return Task::Nothing;
    };
    let Some(count) = read_number(MOST_STEPS, count) else {
        return Task::Nothing;
    };
    let Some(blocks) = read_number(MOST_BLOCKS, blocks) else {
        return Task::Nothing;
    };
    if count < 1 || blocks < 256 {
        return Task::Nothing;
    }
    Task::Make {
        seed,
        count: count as u32,
        blocks: blocks as u16,
    }
}

/// What the words ask for: `run` and one word more, or `make` and three numbers.
pub fn task_of(words: &Vec<Text>) -> Task
    ensures task { result ≡ task_of words.now.items }
    ensures within { IsWithin result }
{
    match words.as_slice() {
        [word, _image] if word.bytes() == b"run".as_slice() => Task::Run,
        [word, seed, count, blocks] if word.bytes() == b"make".as_slice() => {
            load_of(seed.bytes(), count.bytes(), blocks.bytes())
        }
        _ => Task::Nothing,
    }
}
