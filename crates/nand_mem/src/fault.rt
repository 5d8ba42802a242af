use thiserror::Error;

/// Why bytes are no image file: the first fault from left to right.
#[derive(Clone, Copy, Debug, PartialEq, Eq, Error)]
pub enum ImageFault {
    /// The first 12 bytes aren't there or are no header.
    #[error("no header")]
    BadHeader,
    /// The state byte of this page is above 2.
    #[error("page {0} has no state")]
    BadState(u32),
    /// The bytes end inside the pages, or bytes follow the last page.
    #[error("a length that is not allowed")]
    BadLength,
    /// Memory ran out.
    #[error("out of memory")]
    Memory,
}

impl From<kv_base::Memory> for ImageFault {
    ghost use Rattle.std.specs.Prelude.{◌≡◌};
    ghost use Rattle.nand_mem.specs.declared.fault.ImageFault.TheVariants.{Memory};

    ghost from_gives = { λ _ e. e ≡ Memory };

    fn from(_: kv_base::Memory) -> Self {
        ImageFault::Memory
    }
}
