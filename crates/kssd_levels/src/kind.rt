/// What a device does besides its calls.
#[derive(Clone, Copy, Debug, PartialEq, Eq)]
pub enum JobKind {
    /// The frozen table becomes the newest run of level 0.
    Flush,
    /// The runs of level 0 and that of level 1 become the run of level 1.
    Zero,
    /// The run of level 1 and the base become the base.
    One,
    /// What is left of a block of values is copied, and the block erased.
    Collect,
}
