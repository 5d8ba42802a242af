// The keys that open transactions may have changed.
ghost use Rattle.std.specs.Prelude.{◌≡◌, ◌||◌, List, ℕ, true, false, OnOk};
ghost use Rattle.std.specs.FinMap as objects;

use kv_base::{Key, Memory};
use kv_device::KeyMap;
use std::alloc::Global;

// As many keys as all transactions can have changed at a time. Past them all keys count as changed.
const MOST_KEYS: usize = 1280;

/// The keys that open transactions may have changed: these, or all where there was no room for one.
#[derive(Drop)]
pub struct Touched {
    alloc: Global,
    pub keys: KeyMap<()>,
    pub all: bool,
}

impl Touched {
    ghost use Rattle.kfs_cache.specs.Knowing.{is_touched};

    /// None.
    pub fn new(alloc: Global) -> Touched
        ensures { (key : List ℕ) → is_touched result key ≡ false }
    {
        Touched {
            alloc,
            keys: KeyMap::new(alloc),
            all: false,
        }
    }

    /// Whether a transaction may have changed this key.
    pub fn has(&self, key: &Key) -> bool
        ensures { result ≡ is_touched self.now key.now }
    {
        self.all || self.keys.get(key).is_some()
    }

    /// Adds a key.
    pub fn add(&mut self, alloc: Global, key: &Key)
        ensures added { is_touched self.new key.now ≡ true }
        ensures others { (other : List ℕ) → is_touched self.old other ≡ true → is_touched self.new other ≡ true }
    {
        if self.keys.len() >= MOST_KEYS || self.insert(alloc, key).is_err() {
            self.all = true;
        }
    }

    fn insert(&mut self, alloc: Global, key: &Key) -> Result<(), Memory>
        ensures added { OnOk result (is_touched self.new key.now ≡ true) }
        ensures others { (other : List ℕ) → is_touched self.old other ≡ true → is_touched self.new other ≡ true }
    {
        self.keys.insert(key.copy(alloc)?, ())?;
        Ok(())
    }

    /// Takes all away.
    pub fn clear(&mut self)
        ensures { (key : List ℕ) → is_touched self.new key ≡ false }
    {
        self.keys = KeyMap::new(self.alloc);
        self.all = false;
    }
}
