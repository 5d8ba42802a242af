// The objects that stand in a device in memory.
ghost use Rattle.std.specs.Prelude.{◌≡◌, ◌≤◌, ◌<◌, ◌^◌, map, take, IfOk, OnOk, OnErr};
ghost use Rattle.std.specs.FinMap as objects;
ghost use Rattle.kv_device.specs.Objects.{page_count, seen_through, pairs_from, pair_of, AreHeld, AreHeldChanges};

use crate::changes::Changes;
use crate::key_map::KeyMap;
use crate::size::Size;
use kv_base::{Memory, Value};
use std::alloc::Global;

#[derive(Drop)]
pub struct Store {
    pub map: KeyMap<Value>,
    pub pages: usize,
    ghost paged: { pages ≡ page_count map },
    ghost held: { AreHeld map },
}

impl Store {
    // Without objects.
    pub fn new(alloc: Global) -> Store
        ensures { result.map ≡ objects.empty }
    {
        Store {
            map: KeyMap::new(alloc),
            pages: 0,
        }
    }

    // How large it is after these changes.
    pub fn size_after(&self, changes: &Changes) -> Size
        requires few { objects.len changes.now ≤ 640 }
        requires small { objects.len self.now.map < 2 ^ 32 }
        ensures keys { result.keys ≡ objects.len (seen_through changes.now self.now.map) }
        ensures pages { result.pages ≡ page_count (seen_through changes.now self.now.map) }
    {
        let (put, gone) = changes.sizes(&self.map);
        Size {
            keys: self.map.len() + put.keys - gone.keys,
            pages: self.pages + put.pages - gone.pages,
        }
    }

    // Makes the changes, all or, for want of memory, none.
    pub fn apply(&mut self, alloc: Global, changes: &Changes) -> Result<(), Memory>
        requires few { objects.len changes.now ≤ 640 }
        requires small { objects.len self.old.map < 2 ^ 32 }
        requires held { AreHeldChanges changes.now }
        ensures ok { OnOk result (self.new.map ≡ seen_through changes.now self.old.map) }
        ensures err { OnErr result (self.new.map ≡ self.old.map) }
    {
        let size = self.size_after(changes);
        changes.apply_to(alloc, &mut self.map)?;
        self.pages = size.pages;
        Ok(())
    }
}
