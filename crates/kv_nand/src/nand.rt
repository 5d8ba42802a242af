ghost use Rattle.std.specs.Prelude.{◌≡◌, ◌≤◌, ◌<◌, ◌*◌, ℕ, true, IfOk, OnOk, IfErr, IsErrOf, slice_index};
ghost use Rattle.kv_nand.specs.Flash.{Flash, MayProgram, LeftByProgram, LeftByErase, IsSound};
ghost use Rattle.kv_nand.specs.Calls.{programmed, erased, powered_on, with_most_cuts, ReadDone, ReadFault, Falls, MayFail, PlansFault};
ghost use Rattle.kv_nand.specs.Planned.{Planned, with_cut, with_fault};

use crate::NandFault;
use kv_base::PageData;

/// The state of a page.
#[derive(Clone, Copy, Debug, PartialEq, Eq)]
pub enum PageKind {
    /// It may be programmed.
    Erased,
    /// It has its 4,160 bytes.
    Whole,
    /// It was left half programmed or half erased.
    Cut,
}

/// What a power cut leaves of the operation that it meets.
#[derive(Clone, Copy, Debug, PartialEq, Eq)]
pub enum Outcome {
    /// All as it was.
    None,
    /// Cut pages.
    Part,
    /// As `Part` for a program; of an erase the even pages erased and the odd ones as they were.
    Mix,
    /// The operation done.
    All,
}

/// The operations of a flash.
#[derive(Clone, Copy, Debug, PartialEq, Eq)]
pub enum OpKind {
    /// Reading a page.
    Read,
    /// Programming a page.
    Program,
    /// Erasing a block.
    Erase,
}

/// A flash of blocks of 32 pages, each of 4,096 data bytes and 64 spare bytes. Pages are numbered from 0
/// over the whole flash, 32 to a block. No call takes memory.
///
/// Where there is no power, each call but `power_on` answers `Off` and changes nothing. A power cut in a
/// program or an erase shows as `Off` too: the power is off then, and the image is one that the clause
/// `left` allows. `Failed` means that the operation failed with the power on; a program or an erase that
/// failed leaves what a cut may leave, and a read leaves the image as it was. Every operation that began is
/// counted, also one that was cut or failed.
pub trait Nand {
    /// The greatest first spare byte of a page that may be programmed, at least 4.
    const TOP_KIND: u8;

    ghost TOP_KIND: { ℕ };

    /// The image with power, counts and bounds.
    ghost flash: { Self → Flash };

    /// The number of blocks.
    fn blocks(&self) -> u16
        ensures { result ≡ (flash self.now).blocks };

    /// Reads a page of a number below `32 * blocks`. It fills `into` with 4,160 bytes where the page is Whole
    /// and else leaves it. Refusal: `Off`. It may fail; power is never cut in it.
    fn read(&mut self, page: u32, into: &mut PageData) -> Result<PageKind, NandFault>
        requires { page < 32 * (flash self.old).blocks }
        ensures ok { IfOk result (λ kind. ReadDone (flash self.old) page into.old kind into.new (flash self.new)) }
        ensures err { IfErr result (λ fault. ReadFault (flash self.old) into.old fault into.new (flash self.new)) }
        ensures failed { IsErrOf result NandFault.Failed → MayFail (flash self.old).fails OpKind.Read };

    /// Makes an Erased page Whole, with 4,160 bytes. The caller sees to it that earlier pages of its block are
    /// not Erased and later ones are, and that the first spare byte is at most `TOP_KIND`. Cut or failed, it
    /// leaves the page Erased, Cut or Whole with these bytes, and no other page changed.
    fn program(&mut self, page: u32, from: &PageData) -> Result<(), NandFault>
        requires range { page < 32 * (flash self.old).blocks }
        requires free { MayProgram (flash self.old).image page }
        requires kind { slice_index from.now 4096 ≤ TOP_KIND }
        ensures ok { OnOk result (flash self.new ≡ programmed (flash self.old) page from.now) }
        ensures on { OnOk result ((flash self.old).powered ≡ true) }
        ensures err { IfErr result (λ fault. Falls (flash self.old) fault (flash self.new)) }
        ensures failed { IsErrOf result NandFault.Failed → MayFail (flash self.old).fails OpKind.Program }
        ensures left { LeftByProgram (flash self.old).image page from.now (flash self.new).image };

    /// Makes all 32 pages of a block Erased. Cut or failed, it leaves each page of the block as
    /// it was, Erased or Cut, and no other block changed.
    fn erase(&mut self, block: u16) -> Result<(), NandFault>
        requires { block < (flash self.old).blocks }
        ensures ok { OnOk result (flash self.new ≡ erased (flash self.old) block) }
        ensures on { OnOk result ((flash self.old).powered ≡ true) }
        ensures err { IfErr result (λ fault. Falls (flash self.old) fault (flash self.new)) }
        ensures failed { IsErrOf result NandFault.Failed → MayFail (flash self.old).fails OpKind.Erase }
        ensures left { LeftByErase (flash self.old).image block (flash self.new).image };

    /// Turns the power on, where it was off. Counts and image stay.
    fn power_on(&mut self)
        ensures { flash self.new ≡ powered_on (flash self.old) };

    /// What holds of each flash: whole pages have their bytes, and counts are within their bounds.
    ghost sound: { (nand : Self) → IsSound (flash nand) };

    /// The kinds that a device writes may be programmed.
    ghost kinds: { 4 ≤ TOP_KIND };
}

/// A flash that can be told when power is cut and when an operation fails.
pub trait PlannedNand: Nand {
    /// The cut and the fault that are planned for it.
    ghost planned: { Self → Planned };

    /// Plans a cut of power in the n-th program or erase from now, the first being 1, in the place of a cut
    /// that was planned before.
    fn plan_cut(&mut self, n: u32, outcome: Outcome)
        requires { 1 ≤ n }
        ensures bound { Self.flash self.new ≡ with_most_cuts (Self.flash self.old) }
        ensures planned { planned self.new ≡ with_cut (planned self.old) n outcome };

    /// Plans that the n-th operation of a kind from now fails, the first being 1, in the place of a fault that
    /// was planned before.
    fn plan_fail(&mut self, kind: OpKind, n: u32)
        requires { 1 ≤ n }
        ensures bound { PlansFault (Self.flash self.old) kind (Self.flash self.new) }
        ensures planned { planned self.new ≡ with_fault (planned self.old) kind n };
}
