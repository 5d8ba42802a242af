//! The tables of a plain tree.
use kfs_model::{Description, Node};
use kfs_path::Names;
use std::collections::BTreeMap;

/// The places with the numbers that they name, and the nodes by their numbers.
#[derive(Drop)]
pub struct Files {
    pub names: BTreeMap<Names, u64>,
    pub nodes: BTreeMap<u64, Node>,
    /// The number of the next new node.
    pub next: u64,
    /// The chunks of 4,096 bytes of all files.
    pub chunks: u64,
}

/// The descriptors with the numbers of their descriptions, and these by their numbers.
#[derive(Drop)]
pub struct OpenFiles {
    pub descriptors: BTreeMap<u32, u64>,
    pub descriptions: BTreeMap<u64, Description>,
}

/// The files, what of them is open, and the room that there is.
#[derive(Drop)]
pub struct Tables {
    pub files: Files,
    pub desk: OpenFiles,
    /// The most keys that the tree may take.
    pub keys: u64,
    /// The most chunks that its files may take.
    pub pages: u64,
}
