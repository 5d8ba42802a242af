// The place of one page in memory: its state, and bytes that count where it is whole.
ghost use Rattle.kv_base.specs.Sizes.{IsPage};
ghost use Rattle.kv_nand.specs.Flash.{AreBytes};

use kv_base::PageData;
use kv_nand::PageKind;

/// A page. Its bytes count where it is whole, and take their memory in every state.
#[derive(Debug, Drop)]
pub struct Slot {
    pub kind: PageKind,
    pub bytes: PageData,
    pub ghost size: { IsPage bytes },
    pub ghost small: { AreBytes bytes },
}

/// Each number of a page in memory is a byte.
pub fn are_bytes(bytes: &[u8])
    ensures { AreBytes bytes.now }
{
    let _length = bytes.len();
}
