/// What is wrong with an image that a mount refuses, and where: the first kind that applies, in
/// this order. The place is a page for the kinds of the device, a limit for `Space`, and for the
/// kinds of the file system the place of a key among the keys, a node or a charge.
#[derive(Clone, Copy, Debug, PartialEq, Eq)]
pub enum Damage {
    NoAnchor,
    Anchor(u32),
    Run(u32),
    Log(u32),
    Value(u32),
    Space(u32),
    Super(u64),
    Object(u64),
    Inode(u64),
    Entry(u64),
    Chunk(u64),
    Orphan(u64),
    Room(u64),
}
