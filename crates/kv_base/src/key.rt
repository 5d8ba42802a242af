ghost use Rattle.std.specs.Prelude.{◌≡◌, ◌↔◌, List, ℕ, IfOk, IsErrOf};
ghost use Rattle.kv_base.specs.Sizes.{IsKey, IsNoKey};

use crate::{Memory, SizeFault};
use std::alloc::{AllocError, Global};
use std::cmp::Ordering;
use std::marker::Model;

/// The greatest length of a key, in bytes.
pub const MAX_KEY: usize = 264;

/// A key: 1 to 264 bytes, in the order of their bytes.
#[derive(Debug, Drop)]
pub struct Key {
    data: Vec<u8>,
}

impl Model for Key {
    ghost Value = { List ℕ };

    ghost view = { λ k. k.data.items };

    ghost invariant = { λ k. IsKey k.data.items };
}

impl Key {
    /// The key with these bytes. It has a bad length exactly where there are none or more than 264.
    pub fn new(alloc: Global, bytes: &[u8]) -> Result<Key, SizeFault>
        ensures ok { IfOk result (λ key. (key ≡ bytes.now) × IsKey bytes.now) }
        ensures bad { IsErrOf result SizeFault.BadLength ↔ IsNoKey bytes.now }
    {
        if bytes.is_empty() || bytes.len() > MAX_KEY {
            return Err(SizeFault::BadLength);
        }
        Ok(Key {
            data: Vec::from_slice(alloc, bytes)?,
        })
    }

    /// Its bytes.
    pub fn bytes(&self) -> &[u8]
        ensures value { result.now ≡ self.now }
        ensures sizes { IsKey self.now }
    {
        &self.data
    }

    /// A key with the same bytes.
    pub fn copy(&self, alloc: Global) -> Result<Key, Memory>
        ensures { IfOk result (λ key. key ≡ self.now) }
    {
        Ok(Key {
            data: Vec::from_slice(alloc, &self.data)?,
        })
    }
}

impl Clone for Key {
    ghost is_clone = { λ key copy. copy ≡ key };

    fn clone(&self) -> Result<Key, AllocError> {
        Ok(Key {
            data: self.data.clone()?,
        })
    }
}

impl PartialEq for Key {
    ghost use Rattle.std.specs.Prelude.{nat_eq};
    ghost use Rattle.std.specs.Cmp as Cmp;
    ghost use Rattle.std.specs.Cmp.Lexicographic.{pointwise, nat_list_eq_equiv};

    ghost eq = { pointwise nat_eq };

    ghost laws = { Cmp.partial_equiv_from_equiv nat_list_eq_equiv };

    fn eq(&self, other: &Key) -> bool {
        self.data == other.data
    }
}

impl Eq for Key {
    ghost use Rattle.std.specs.Cmp.Lexicographic.{nat_list_eq_equiv};

    ghost laws = { nat_list_eq_equiv };
}

impl PartialOrd for Key {
    ghost use Rattle.std.proofs.Common.{rules};
    ghost use Rattle.std.specs.Cmp.{partial_order_from_own_ties};
    ghost use Rattle.std.specs.Cmp.Rules.{comparing};
    ghost use Rattle.std.specs.Cmp.Lexicographic.{slice_cmp};
    ghost use Rattle.std.specs.Ordering.{nat_cmp, as_partial_cmp};

    ghost partial_cmp = { as_partial_cmp (slice_cmp nat_cmp) };

    ghost laws = { partial_order_from_own_ties (Prim.search (comparing, rules)) (Prim.search (comparing, rules)) };

    fn partial_cmp(&self, other: &Key) -> Option<Ordering> {
        Some(self.cmp(other))
    }
}

impl Ord for Key {
    ghost use Rattle.std.proofs.Common.{rules};
    ghost use Rattle.std.specs.Cmp.Rules.{comparing};
    ghost use Rattle.std.specs.Cmp.Lexicographic.{slice_cmp, nat_list_cmp_total};
    ghost use Rattle.std.specs.Ordering.{nat_cmp};

    ghost cmp = { slice_cmp nat_cmp };

    ghost total = { nat_list_cmp_total };

    ghost matches_partial_cmp = { Prim.search (comparing, rules) };

    ghost matches_eq = { Prim.search (comparing, rules) };

    fn cmp(&self, other: &Key) -> Ordering {
        self.data.cmp(&other.data)
    }
}
