// The changes of open transactions.
ghost use Rattle.std.specs.Prelude.{◌≡◌, ◌≤◌, ◌<◌, ◌||◌, ◌&&◌, not, nat_le, false, IfOk, OnOk, OnErr, option_copied, IfSome, is_none, position, option_map, map};
ghost use Rattle.std.specs.Option.{ForSome};
ghost use Rattle.std.specs.FinMap as objects;
ghost use Rattle.kv_device.specs.Objects.{seen_through, AreHeldChanges, IsHeldValue};
ghost use Rattle.kv_device.specs.Machine.{change_count};

use crate::held::{key_is_held, value_is_held};
use crate::key_map::KeyMap;
use kv_base::{Key, Memory, Value};
use std::alloc::Global;

pub type Changes = KeyMap<Option<Value>>;

// The changes of an open transaction: by its key the new value, or nothing for a deletion.
#[derive(Drop)]
pub struct Open {
    pub changes: Changes,
    ghost few: { objects.len changes ≤ 640 },
    ghost held: { AreHeldChanges changes },
}

impl Open {
    // Without changes.
    #[tactic(auto, using(crate::proofs::Lens::map_lens))]
    pub fn new(alloc: Global) -> Open
        ensures { result.changes ≡ objects.empty }
    {
        Open {
            changes: KeyMap::new(alloc),
        }
    }

    // It has no room for the key, or all have none.
    pub fn is_full(&self, total: usize, key: &Key) -> bool
        ensures { result ≡ (not (objects.contains_key self.now.changes key.now) && (nat_le 640 (objects.len self.now.changes) || nat_le 1280 total)) }
    {
        self.changes.get(key).is_none() && (self.changes.len() >= 640 || total >= 1280)
    }

    // Makes a change, in the place of an older one of that key.
    #[tactic(auto, using(crate::proofs::Lens::map_lens))]
    pub fn put(&mut self, alloc: Global, key: &Key, value: Option<&Value>) -> Result<(), Memory>
        requires { objects.contains_key self.old.changes key.now ≡ false → objects.len self.old.changes < 640 }
        ensures ok { OnOk result (self.new.changes ≡ objects.insert self.old.changes key.now (option_copied value.entry)) }
        ensures err { OnErr result (self.new.changes ≡ self.old.changes) }
    {
        let change = copy_of(alloc, value)?;
        key_is_held(key);
        self.changes.insert(key.copy(alloc)?, change)?;
        Ok(())
    }

    // The value that the transaction sees.
    pub fn found(
        &self,
        alloc: Global,
        stable: &KeyMap<Value>,
        key: &Key,
    ) -> Result<Option<Value>, Memory>
        ensures { IfOk result (λ value. value ≡ objects.get (seen_through self.now.changes stable.now) key.now) }
    {
        match self.changes.get(key) {
            Some(Some(value)) => Ok(Some(value.copy(alloc)?)),
            Some(None) => Ok(None),
            None => match stable.get(key) {
                Some(value) => Ok(Some(value.copy(alloc)?)),
                None => Ok(None),
            },
        }
    }
}

// A copy of a value, where there is one.
fn copy_of(alloc: Global, value: Option<&Value>) -> Result<Option<Value>, Memory>
    ensures same { IfOk result (λ change. change ≡ option_copied value.entry) }
    ensures held { IfOk result (λ change. ForSome change IsHeldValue) }
{
    match value {
        Some(value) => {
            value_is_held(value);
            Ok(Some(value.copy(alloc)?))
        }
        None => Ok(None),
    }
}

// The changed keys of all.
#[tactic(auto, unfolding(crate::specs::Machine::change_count))]
pub fn change_total(pending: &[Option<Open>; 4]) -> usize
    ensures { result ≡ change_count (map (option_map (λ t. t.changes)) pending.now) }
{
    let mut total = 0;
    for slot in pending {
        if let Some(slot) = slot {
            total += slot.changes.len();
        }
    }
    total
}

// The lowest number that is free.
pub fn first_free(pending: &[Option<Open>; 4]) -> Option<usize>
    ensures free { result ≡ position is_none pending.now }
    ensures below { IfSome result (λ number. number < 4) }
{
    pending.iter().position(|slot| slot.is_none())
}
