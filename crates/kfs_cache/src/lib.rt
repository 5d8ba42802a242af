//! A cache between a session and its device.
//!
//! A read cache of committed values, of which the least recently used goes first (`src/values.rt`). `Cached`
//! (`src/cached.rt`) is a `Device` itself, with the same machine as the device below it, so its callers have the
//! contracts of that device.
//!
//! Invariant: `Fits` (`specs/Knowing.antt`), the field `fits` of `Cached`. What is kept is stable and no open
//! transaction has changed it, each key that one has changed is known as touched, and while the device is known to be
//! up its open transactions are known.
//!
//! Begin with `specs/Knowing.antt`, then `src/cached.rt` and `src/known.rt`. `kfs_runner` puts it over the device on
//! flash (`with_cache` in `src/flash.rt` there).
#![tactic(auto)]

mod cached;
mod known;
mod numbers;
mod touched;
mod values;

pub use cached::Cached;
