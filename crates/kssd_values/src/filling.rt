// A block whose pages are programmed one after the other.
ghost use Rattle.std.specs.Prelude.{◌≡◌, ◌≢◌, ◌<◌, ◌≤◌, ◌+◌, ◌*◌, ℕ, OnOk, IfOk, IfErr, slice_index};
ghost use Rattle.kv_nand.specs.Flash.{Erased, LeftByProgram};
ghost use Rattle.kv_nand.specs.Calls.{programmed, Falls};

use kv_base::PageData;
use kv_nand::{Nand, NandFault};

/// The block, and the next page within it.
#[derive(Clone, Copy, Debug)]
pub struct Filling {
    pub block: u16,
    pub next: u32,
}

impl Filling {
    ghost use Rattle.kssd_values.specs.Pages.{FillsBlock};

    /// The number of the next page.
    pub fn page(self) -> u32
        requires { self.next ≤ 32 }
        ensures { result ≡ 32 * self.block + self.next }
    {
        32 * u32::from(self.block) + self.next
    }

    /// Programs the next page, and gives its number. At a fault it is unchanged.
    pub fn program<N: Nand>(&mut self, nand: &mut N, from: &PageData) -> Result<u32, NandFault>
        requires room { self.old.next < 32 }
        requires device { self.old.block < (N.flash nand.old).blocks }
        requires kind { slice_index from.now 4096 ≤ 4 }
        requires fills { FillsBlock self.old (N.flash nand.old).image }
        ensures page { IfOk result (λ page. page ≡ 32 * self.old.block + self.old.next) }
        ensures next { OnOk result (self.new ≡ record { block = self.old.block; next = self.old.next + 1 }) }
        ensures ok { OnOk result (N.flash nand.new ≡ programmed (N.flash nand.old) (32 * self.old.block + self.old.next) from.now) }
        ensures err { IfErr result (λ fault. Falls (N.flash nand.old) fault (N.flash nand.new)) }
        ensures left { LeftByProgram (N.flash nand.old).image (32 * self.old.block + self.old.next) from.now (N.flash nand.new).image }
    {
        let page = self.page();
        nand.program(page, from)?;
        self.next += 1;
        Ok(page)
    }
}
