ghost use Rattle.std.specs.Prelude.{◌≡◌, ◌≢◌, ◌<◌, ◌≤◌, ◌+◌, ◌*◌, ◌/◌, ◌%◌, ◌⊎◌, ◌↔◌, ◌++◌, ◌∷◌, [], ℕ, true, false, length, IsTrue, MatchOption, IfOk, OnOk, IfErr};
ghost use Rattle.kv_nand.specs.Flash.{Image, LeftByErase};
ghost use Rattle.kv_nand.specs.Calls.{erased, has_read, Falls};
ghost use Rattle.kv_nand.specs.Working.{Works, Stops};
ghost use Rattle.kssd_model.specs.OnlyReading.{StopsReading};
ghost use Rattle.kssd_values.specs.declared.values.Values as lent;
ghost use Rattle.kssd_values.specs.Places.{IsValueBlock};
ghost use Rattle.kssd_values.specs.Blocks.{device_of, is_live_at, free_count, has_target, copied, IsClosed, IsVictim};
ghost use Rattle.kssd_values.specs.Pages.{is_value, key_in, size_in, Fills, KeepsPages};
ghost use Rattle.kssd_values.specs.Changes.{Clears};
ghost use Rattle.kssd_reclaim.specs.Sources.{AreSources};

use crate::copies::{Copies, CopyOf};
use kssd_entry::{Entries, Entry};
use kssd_layout::PAGES_PER_BLOCK;
use kssd_values::{Mark, Values};
use kv_base::Memory;
use kv_nand::{FlashFault, Nand, NandFault};
use std::alloc::Global;

/// The collection of a block: its visible and pending pages are copied one after the other.
#[derive(Debug, Drop)]
pub struct Reclaim {
    block: u16,
    next: u32,
    copies: Copies,
    ghost sound: { AreSources block next copies },
}

impl Reclaim {
    ghost use Rattle.kssd_reclaim.specs.Reclaim.{block_of, next_of, copies_of, moves_of, AllCopied, IsNext, Collects};
    ghost use Rattle.kssd_reclaim.specs.Steps.{Steps, Adds};

    /// Begins with a block, the victim.
    pub fn start(alloc: Global, values: &Values, block: u16) -> Result<Reclaim, Memory>
        requires { IsVictim values.now block }
        ensures block { IfOk result (λ reclaim. block_of reclaim ≡ block) }
        ensures none { IfOk result (λ reclaim. (next_of reclaim ≡ 0) × (copies_of reclaim ≡ [])) }
        ensures collects { IfOk result (λ reclaim. (v : lent.Values) (image : Image) → Collects reclaim v image) }
    {
        let _values = values;
        Ok(Reclaim {
            block,
            next: 0,
            copies: Copies::new(alloc),
        })
    }

    /// The block that is collected.
    pub fn block(&self) -> u16
        ensures { result ≡ block_of self.now }
    {
        self.block
    }

    // The next page to be copied.
    fn next_source(&self, values: &Values) -> Option<u32>
        requires { IsValueBlock (device_of values.now) (block_of self.now) }
        ensures { MatchOption result (AllCopied self.now values.now) (IsNext self.now values.now) }
    {
        let first = PAGES_PER_BLOCK * u32::from(self.block);
        for place in self.next..PAGES_PER_BLOCK {
            if values.mark_of(first + place).is_live() {
                return Some(first + place);
            }
        }
        None
    }

    /// Whether no page is left to be copied.
    pub fn is_done(&self, values: &Values) -> bool
        requires { IsValueBlock (device_of values.now) (block_of self.now) }
        ensures { IsTrue result ↔ AllCopied self.now values.now }
    {
        self.next_source(values).is_none()
    }

    // Adds the copy of a page.
    fn add<N: Nand>(
        &mut self,
        alloc: Global,
        nand: &mut N,
        values: &Values,
        source: u32,
        target: u32,
    ) -> Result<(), FlashFault>
        requires block { IsValueBlock (device_of values.now) (block_of self.old) }
        requires source { source / 32 ≡ block_of self.old }
        requires next { next_of self.old ≤ source % 32 }
        requires device { device_of values.now ≡ (N.flash nand.old).blocks }
        requires stands { is_value ((N.flash nand.old).image source) ≡ true }
        ensures ok { OnOk result (Adds self.old ((N.flash nand.old).image source) source target self.new) }
        ensures read { OnOk result (N.flash nand.new ≡ has_read (N.flash nand.old)) }
        ensures few { (N.flash nand.new).reads ≤ (N.flash nand.old).reads + 1 }
        ensures err { IfErr result (λ fault. StopsReading (N.flash nand.old) fault (N.flash nand.new)) }
    {
        let name = values.name(alloc, nand, source)?;
        self.copies.push(CopyOf {
            source,
            target,
            key: name.key,
            length: name.length,
        })?;
        self.next = source % PAGES_PER_BLOCK + 1;
        Ok(())
    }

    /// At most one operation: takes a block to copy into, where there is none, or copies the next
    /// page that is visible or pending. True when all are copied. At any fault neither this nor
    /// `values` is used again.
    pub fn step<N: Nand>(
        &mut self,
        alloc: Global,
        nand: &mut N,
        values: &mut Values,
    ) -> Result<bool, FlashFault>
        requires closed { IsClosed values.old (block_of self.old) }
        requires block { (free_count values.old ≢ 0) ⊎ (has_target values.old ≡ true) }
        requires few { copied values.old < 32 }
        requires device { device_of values.old ≡ (N.flash nand.old).blocks }
        requires stands { (page : ℕ) → page / 32 ≡ block_of self.old → is_live_at values.old page ≡ true → is_value ((N.flash nand.old).image page) ≡ true }
        requires fills { Fills values.old (N.flash nand.old).image }
        ensures ok { OnOk result (Steps self.old values.old (N.flash nand.old) self.new values.new (N.flash nand.new)) }
        ensures done { IfOk result (λ done. IsTrue done ↔ AllCopied self.new values.new) }
        ensures collects { OnOk result (Collects self.old values.old (N.flash nand.old).image → Collects self.new values.new (N.flash nand.new).image) }
        ensures fills { OnOk result (Fills values.new (N.flash nand.new).image) }
        ensures keeps { KeepsPages values.old (N.flash nand.old).image (N.flash nand.new).image }
        ensures works { OnOk result (Works (N.flash nand.old) (N.flash nand.new) 1 2) }
        ensures err { IfErr result (λ fault. Stops (N.flash nand.old) fault (N.flash nand.new) 1 2) }
    {
        let source = match self.next_source(values) {
            Some(source) => source,
            None => return Ok(true),
        };
        match values.copy(alloc, nand, source)? {
            Some(target) => {
                self.add(alloc, nand, values, source, target)?;
                Ok(self.next_source(values).is_none())
            }
            None => Ok(false),
        }
    }

    /// The copies made, by rising sources.
    pub fn copies(&self) -> &Copies
        ensures copies { result.now ≡ copies_of self.now }
        ensures rising { AreSources (block_of self.now) (next_of self.now) (copies_of self.now) }
    {
        &self.copies
    }

    /// An entry for each copy whose source is visible: the key with the copy's page and the length.
    pub fn moves(&self, alloc: Global, values: &Values) -> Result<Entries, Memory>
        requires { IsValueBlock (device_of values.now) (block_of self.now) }
        ensures { IfOk result (λ moves. moves ≡ moves_of self.now values.now) }
    {
        let mut moves = Entries::new(alloc);
        for copy in self.copies.as_slice() {
            if let Mark::Visible = values.mark_of(copy.source) {
                moves.push(Entry::At {
                    key: copy.key.copy(alloc)?,
                    page: copy.target,
                    length: copy.length,
                })?;
            }
        }
        Ok(moves)
    }

    /// Erases the block, which has no visible and pending pages any more; the copying is over.
    pub fn finish<N: Nand>(self, nand: &mut N, values: &mut Values) -> Result<(), NandFault>
        requires closed { IsClosed values.old (block_of self) }
        requires dead { (page : ℕ) → page / 32 ≡ block_of self → is_live_at values.old page ≡ false }
        requires device { device_of values.old ≡ (N.flash nand.old).blocks }
        ensures ok { OnOk result (Clears values.old (block_of self) values.new) }
        ensures erased { OnOk result (N.flash nand.new ≡ erased (N.flash nand.old) (block_of self)) }
        ensures fills { OnOk result (Fills values.old (N.flash nand.old).image → Fills values.new (N.flash nand.new).image) }
        ensures keeps { KeepsPages values.old (N.flash nand.old).image (N.flash nand.new).image }
        ensures left { LeftByErase (N.flash nand.old).image (block_of self) (N.flash nand.new).image }
        ensures err { IfErr result (λ fault. Falls (N.flash nand.old) fault (N.flash nand.new)) }
    {
        values.clear(nand, self.block)
    }
}
