//! Numbers drawn one after the other.
ghost use Rattle.std.specs.Prelude.{◌≡◌, ◌%◌, ◌<◌, ◌^◌, IfOk, ◌++◌, codes};
ghost use Rattle.std.specs.Fmt.{decimal};
ghost use Rattle.kfs_load.specs.Generator.{drawn, number_of, file_by, file_path, dir_path};

use kfs_path::{Memory, Text};
use std::alloc::Global;

// The multiplier of Knuth's MMIX generator, and its increment.
const MULTIPLIER: u64 = 6_364_136_223_846_793_005;

const INCREMENT: u64 = 1_442_695_040_888_963_407;

/// A linear congruential generator modulo 2^64.
#[derive(Clone, Copy, Debug, PartialEq, Eq)]
pub struct Draws {
    pub state: u64,
}

impl Draws {
    /// The next number, below 2^31.
    #[tactic(auto, unfolding(crate::specs::Generator::drawn, crate::specs::Generator::number_of))]
    pub fn number(&mut self) -> u32
        ensures state { self.new.state ≡ drawn self.old.state }
        ensures number { result ≡ number_of self.new.state }
    {
        self.state = self.state.wrapping_mul(MULTIPLIER).wrapping_add(INCREMENT);
        (self.state >> 33) as u32
    }

    /// The path of a file, from two draws.
    pub fn file(&mut self, alloc: Global) -> Result<Text, Memory>
        ensures state { self.new.state ≡ drawn (drawn self.old.state) }
        ensures path { IfOk result (λ path. path ≡ file_by (drawn self.old.state) (drawn (drawn self.old.state))) }
    {
        let a = self.number() % 10;
        let b = self.number() % 20;
        file_path(alloc, a, b)
    }
}

fn file_path(alloc: Global, a: u32, b: u32) -> Result<Text, Memory>
    ensures { IfOk result (λ path. path ≡ file_path a b) }
{
    let path = format!(in alloc; "/d{a}/f{b}")?;
    Text::new(alloc, path.as_bytes())
}

/// The path of a directory.
pub fn dir_path(alloc: Global, a: u32) -> Result<Text, Memory>
    ensures { IfOk result (λ path. path ≡ dir_path a) }
{
    let path = format!(in alloc; "/d{a}")?;
    Text::new(alloc, path.as_bytes())
}
