//! Tests of the parts of a session, through their public calls: what no clause says of them, and no script shows.
//!
//! Unit tests of the crates of the host: `src/cache.rt` is of `kfs_cache`, `src/names.rt` of `kfs_dir`,
//! `src/contents.rt` of `kfs_file`, `src/running.rt` of `kfs_tx`, `src/judged.rt` of `kfs_judge`, `src/device.rt` of
//! the device in memory of `kv_device`, and so on. Each file is built for tests alone.
//!
//! There is no state, nothing is exported and there is no law: what always holds is said by the contracts of the crates
//! themselves, and these are examples.
//!
//! Begin with `src/paths.rt` or `src/device.rt`. No crate stands on this one; scripts have their tests in the rows of
//! `kevin_rows`.
#![tactic(auto)]

#[cfg(test)]
mod cache;
#[cfg(test)]
mod contents;
#[cfg(test)]
mod device;
#[cfg(test)]
mod judged;
#[cfg(test)]
mod loads;
#[cfg(test)]
mod names;
#[cfg(test)]
mod objects;
#[cfg(test)]
mod paths;
#[cfg(test)]
mod plain_tree;
#[cfg(test)]
mod running;
#[cfg(test)]
mod scripts;
#[cfg(test)]
mod sessions;
#[cfg(test)]
mod streams;
#[cfg(test)]
mod trees;
