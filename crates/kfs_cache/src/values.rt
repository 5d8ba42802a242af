// Values by their keys, of which the least recently used goes first.
ghost use Rattle.std.specs.Prelude.{◌≡◌, ◌≤◌, List, ℕ, Some, IfOk, OnOk, OnErr};
ghost use Rattle.std.specs.FinMap as objects;
ghost use Rattle.kfs_cache.specs.Parts.{IsPart};

use kv_base::{Key, Memory, Value};
use lru::LruCache;
use std::alloc::Global;
use std::marker::Model;
use std::num::NonZeroUsize;

/// Values by their keys, at most so many. It may forget any.
#[derive(Drop)]
pub struct Values {
    cache: LruCache<Vec<u8>, Value>,
}

impl Model for Values {
    ghost use Rattle.std.specs.Prelude.{List, ℕ};
    ghost use Rattle.std.specs.Coded.{coded_ℕ, coded_list};
    ghost use Rattle.std.specs.FinMap as objects;
    ghost use Rattle.kv_device.specs.Objects.{Objects};
    ghost use Rattle.kfs_cache.specs.Parts.{shown};

    ghost Value = { Objects };

    ghost coded = { objects.code (coded_list coded_ℕ) (coded_list coded_ℕ) };

    ghost view = { λ v. shown v.cache.entries };
}

impl Values {
    /// No values, and room for so many.
    pub fn new(alloc: Global, capacity: usize) -> Result<Values, Memory>
        requires { 1 ≤ capacity }
        ensures { IfOk result (λ values. values ≡ objects.empty) }
    {
        let Some(capacity) = NonZeroUsize::new(capacity) else {
            unreachable!()
        };
        Ok(Values {
            cache: LruCache::new(alloc, capacity)?,
        })
    }

    /// The value of a key, which is then the most recently used.
    pub fn get(&mut self, alloc: Global, key: &Key) -> Result<Option<Value>, Memory>
        ensures found { IfOk result (λ value. value ≡ objects.get self.old key.now) }
        ensures same { self.new ≡ self.old }
    {
        match self.cache.get(key.bytes()) {
            Some(value) => Ok(Some(value.copy(alloc)?)),
            None => Ok(None),
        }
    }

    /// Takes a key away.
    pub fn remove(&mut self, key: &Key)
        ensures { self.new ≡ objects.remove self.old key.now }
    {
        if self.cache.len() > 0 {
            drop(self.cache.pop(key.bytes()));
        }
    }

    /// Puts a value. Where there is no room the least recently used one goes.
    pub fn put(&mut self, alloc: Global, key: &Key, value: &Value) -> Result<(), Memory>
        ensures found { OnOk result (objects.get self.new key.now ≡ Some value.now) }
        ensures others { OnOk result (IsPart self.new (objects.insert self.old key.now value.now)) }
        ensures err { OnErr result (self.new ≡ self.old) }
    {
        let name = Vec::from_slice(alloc, key.bytes())?;
        self.cache.put(name, value.copy(alloc)?)?;
        Ok(())
    }
}
