// A map from keys, in their order.
ghost use Rattle.std.specs.Prelude.{◌≡◌, ◌≤◌, T, true, false, cond, map, take, IfOk, OnOk, OnErr, option_copied};
ghost use Rattle.std.specs.FinMap as objects;
ghost use Rattle.std.specs.FinMap.Entries.{is_sorted};
ghost use Rattle.kv_device.specs.Bytes.{bytes_cmp};
ghost use Rattle.kv_device.specs.Objects.{page_count, pairs_from, seen_through, changed, changed_all, pair_of, is_wanted, wanted_of};
ghost use Rattle.kv_device.specs.Sizes.{one, large, new_total, old_total};

use crate::size::Size;
use kv_base::{Key, Memory, Pair, Pairs, Value};
use std::alloc::Global;
use std::collections::BTreeMap;
use std::collections::btree_map::Iter;
use std::marker::Model;

/// A map by rising keys.
#[derive(Drop)]
pub struct KeyMap<V> {
    map: BTreeMap<Key, V>,
}

impl<V> Model for KeyMap<V> {
    ghost use Rattle.std.specs.Prelude.{ℕ};
    ghost use Rattle.std.specs.Coded.{coded_ℕ, coded_list};
    ghost use Rattle.std.specs.FinMap as objects;
    ghost use Rattle.kv_device.specs.Bytes.{bytes_cmp};

    ghost Value = { objects.FinMap bytes_cmp V };

    ghost coded = { objects.code (coded_list coded_ℕ) V.code };

    ghost view = { λ m. objects.from_entries m.map.entries };
}

impl<V> KeyMap<V> {
    /// An empty map.
    pub fn new(alloc: Global) -> KeyMap<V>
        ensures { result ≡ objects.empty }
    {
        KeyMap {
            map: BTreeMap::new(alloc),
        }
    }

    /// How many keys there are.
    pub fn len(&self) -> usize
        ensures { result ≡ objects.len self.now }
    {
        self.map.len()
    }

    /// The value of a key.
    pub fn get(&self, key: &Key) -> Option<&V>
        ensures { option_copied result ≡ objects.get self.now key.now }
    {
        self.map.get(key)
    }
}

impl<V: Drop> KeyMap<V> {
    /// Puts a value, and gives the one that it replaces. Only a new key can want memory.
    pub fn insert(&mut self, key: Key, value: V) -> Result<Option<V>, Memory>
        ensures old { IfOk result (λ old. old ≡ objects.get self.old key) }
        ensures ok { OnOk result (self.new ≡ objects.insert self.old key value) }
        ensures err { OnErr result (self.new ≡ self.old) }
        ensures absent { OnErr result (objects.contains_key self.old key ≡ false) }
    {
        let old = self.map.insert(key, value)?;
        Ok(old)
    }

    /// Takes a key away; one that is absent stays absent.
    pub fn remove(&mut self, key: &Key)
        ensures { self.new ≡ objects.remove self.old key.now }
    {
        let _ = self.map.remove(key);
    }
}

impl KeyMap<Value> {
    // Puts a copy of a value where its key is wanted.
    fn put_wanted(
        &mut self,
        alloc: Global,
        key: &Key,
        value: &Value,
        from: &Key,
        prefix: &Key,
    ) -> Result<(), Memory>
        ensures { OnOk result (self.new ≡ cond (is_wanted from.now prefix.now key.now) (objects.insert self.old key.now value.now) self.old) }
    {
        if !is_wanted(key, from, prefix) {
            return Ok(());
        }
        self.insert(key.copy(alloc)?, value.copy(alloc)?)?;
        Ok(())
    }

    // A copy of the objects from a key on whose keys begin with a prefix.
    fn wanted(&self, alloc: Global, from: &Key, prefix: &Key) -> Result<KeyMap<Value>, Memory>
        ensures { IfOk result (λ near. near ≡ wanted_of self.now from.now prefix.now) }
    {
        let mut near = KeyMap::new(alloc);
        for (key, value) in &self.map {
            near.put_wanted(alloc, key, value, from, prefix)?;
        }
        Ok(near)
    }

    // Makes the changes that are left, all or, for want of memory, none. A removal wants none, so it
    // waits until the later changes are made.
    fn make(&mut self, alloc: Global, mut rest: Iter<'_, Key, Option<Value>>) -> Result<(), Memory>
        requires { T (is_sorted bytes_cmp rest) }
        ensures ok { OnOk result (self.new ≡ changed_all rest.entry self.old) }
        ensures err { OnErr result (self.new ≡ self.old) }
    {
        match rest.next() {
            None => Ok(()),
            Some((key, None)) => match self.make(alloc, rest) {
                Ok(()) => {
                    self.remove(key);
                    Ok(())
                }
                Err(fault) => Err(fault),
            },
            Some((key, Some(value))) => {
                let spare = key.copy(alloc)?;
                let old = self.insert(key.copy(alloc)?, value.copy(alloc)?)?;
                match self.make(alloc, rest) {
                    Ok(()) => Ok(()),
                    Err(fault) => {
                        self.put_back(spare, old);
                        Err(fault)
                    }
                }
            }
        }
    }

    // Puts a value back in the place of the one that replaced it.
    fn put_back(&mut self, key: Key, old: Option<Value>)
        requires { objects.contains_key self.old key ≡ true }
        ensures { self.new ≡ changed self.old (key, old) }
    {
        match old {
            Some(value) => {
                let _ = self.insert(key, value);
            }
            None => self.remove(&key),
        }
    }

    /// By rising keys, the first pairs from a key on whose keys begin with a prefix.
    pub fn pairs_from(
        &self,
        alloc: Global,
        from: &Key,
        prefix: &Key,
        at_most: u32,
    ) -> Result<Pairs, Memory>
        ensures { IfOk result (λ pairs. map pair_of pairs ≡ take at_most (pairs_from self.now from.now prefix.now)) }
    {
        let mut pairs = Pairs::new(alloc);
        let mut room = at_most;
        for (key, value) in &self.map {
            if room == 0 {
                return Ok(pairs);
            }
            if is_wanted(key, from, prefix) {
                pairs.push(Pair {
                    key: key.copy(alloc)?,
                    value: value.copy(alloc)?,
                })?;
                room -= 1;
            }
        }
        Ok(pairs)
    }
}

fn is_wanted(key: &Key, from: &Key, prefix: &Key) -> bool
    ensures { result ≡ is_wanted from.now prefix.now key.now }
{
    from <= key && key.bytes().starts_with(prefix.bytes())
}

impl KeyMap<Option<Value>> {
    /// Makes these changes, all or, for want of memory, none.
    pub fn apply_to(&self, alloc: Global, objects: &mut KeyMap<Value>) -> Result<(), Memory>
        ensures ok { OnOk result (objects.new ≡ seen_through self.now objects.old) }
        ensures err { OnErr result (objects.new ≡ objects.old) }
    {
        objects.make(alloc, self.map.iter())
    }

    /// By rising keys, the first pairs from a key on whose keys begin with a prefix, as they are
    /// with these changes made.
    pub fn pairs_through(
        &self,
        alloc: Global,
        stable: &KeyMap<Value>,
        from: &Key,
        prefix: &Key,
        at_most: u32,
    ) -> Result<Pairs, Memory>
        ensures { IfOk result (λ pairs. map pair_of pairs ≡ take at_most (pairs_from (seen_through self.now stable.now) from.now prefix.now)) }
    {
        if self.len() == 0 {
            return stable.pairs_from(alloc, from, prefix, at_most);
        }
        let mut near = stable.wanted(alloc, from, prefix)?;
        self.apply_to(alloc, &mut near)?;
        near.pairs_from(alloc, from, prefix, at_most)
    }

    // How many keys and pages they put, and how many stand at their keys.
    pub(crate) fn sizes(&self, stable: &KeyMap<Value>) -> (Size, Size)
        requires { objects.len self.now ≤ 640 }
        ensures new_keys { result.0.keys ≡ new_total one (objects.entries self.now) }
        ensures new_pages { result.0.pages ≡ new_total large (objects.entries self.now) }
        ensures old_keys { result.1.keys ≡ old_total one stable.now (objects.entries self.now) }
        ensures old_pages { result.1.pages ≡ old_total large stable.now (objects.entries self.now) }
    {
        let mut put = Size { keys: 0, pages: 0 };
        let mut gone = Size { keys: 0, pages: 0 };
        for (key, change) in &self.map {
            put = put.with(change.as_ref());
            gone = gone.with(stable.get(key));
        }
        (put, gone)
    }
}
