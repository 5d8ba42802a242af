/// What a block is for.
#[derive(Clone, Copy, Debug, PartialEq, Eq)]
pub enum Region {
    /// Anchors.
    Anchor,
    /// The ring of the log.
    Log,
    /// Sorted runs.
    Run,
    /// Values in pages of their own.
    Value,
}
