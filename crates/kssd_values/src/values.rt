ghost use Rattle.std.specs.Prelude.{◌≡◌, ◌≢◌, ◌<◌, ◌≤◌, ◌+◌, ◌-◌, ◌*◌, ◌/◌, ◌==◌, ◌⊎◌, ◌↔◌, ℕ, true, false, is_some, get_or, length, List, None, Some, Option, IsNone, IfSome, IfOk, OnOk, IfErr, if◌then◌else◌, position, nat_le};
ghost use Rattle.std.specs.List.{list_any};
ghost use Rattle.kv_nand.specs.Flash.{Erased, Whole, LeftByErase};
ghost use Rattle.kv_nand.specs.Calls.{erased, Falls, has_read};
ghost use Rattle.kv_nand.specs.Working.{Works, Stops, ops_more};
ghost use Rattle.kv_nand.specs.Faults.{flash_fault};
ghost use Rattle.kssd_model.specs.OnlyReading.{StopsReading};
ghost use Rattle.kssd_layout.specs.Numbers.{first_value_block_in};
ghost use Rattle.kssd_image.specs.ValuePages.{HoldsValue, has_value, first_bytes};
ghost use Rattle.kssd_values.specs.declared.mark.Mark.TheVariants as marks;
ghost use Rattle.kssd_values.specs.Marks.{is_live};
ghost use Rattle.kssd_values.specs.Places.{IsValueBlock, AreValues, is_in, room_in, opened_when_over};
ghost use Rattle.kssd_values.specs.States.{is_whole};

use crate::filling::Filling;
use crate::page::{name_in, page_of, value_in};
use crate::{Mark, PageList, ValueName};
use kssd_layout::{Layout, PAGES_PER_BLOCK};
use kv_base::{Key, Memory, PageData, Value};
use kv_nand::{FlashFault, Nand, NandFault, PageKind};
use std::alloc::Global;

/// The blocks of values: which are free, which one is open for new values, which one is copied
/// into, and for each page whether an entry names it. The flash is lent to its calls.
#[derive(Debug, Drop)]
pub struct Values {
    layout: Layout,
    marks: Vec<Mark>,
    free: Vec<bool>,
    opened: Option<Filling>,
    target: Option<Filling>,
    ghost sound: { AreValues layout.blocks marks.items free.items opened target },
}

impl Values {
    ghost use Rattle.kssd_values.specs.Blocks.{BlockState, is_closed_at, Free, Open, Closed, Target, device_of, mark_at, is_live_at, state_at, open_next, open_room, has_target, target_next, copied, free_count, free_room, live_in, live_count, is_filled, IsClosed, IsVictim};
    ghost use Rattle.kssd_values.specs.Pages.{is_value, key_in, size_in, Fills, FillsBlock, KeepsPages};
    ghost use Rattle.kssd_values.specs.Changes.{SamePlaces, Puts, put_cost, Copies, CopiesPage, Clears, Takes, Opens};

    /// The values of a device whose visible pages are these, which lie in the value region. A block
    /// with a visible page is closed, every other one is free, and none is open.
    pub fn open(alloc: Global, layout: &Layout, visible: &PageList) -> Result<Values, Memory>
        requires { (page : ℕ) → list_any (λ q. q == page) visible.now ≡ true → IsValueBlock layout.now.blocks (page / 32) }
        ensures device { IfOk result (λ values. device_of values ≡ layout.now.blocks) }
        ensures marks { IfOk result (λ values. (page : ℕ) → mark_at values page ≡ (if list_any (λ q. q == page) visible.now then marks.Visible else marks.Dead)) }
        ensures states { IfOk result (λ values. (block : ℕ) → IsValueBlock layout.now.blocks block → state_at values block ≡ (if list_any (λ q. (q / 32) == block) visible.now then Closed else Free)) }
        ensures none { IfOk result (λ values. (open_room values ≡ 0) × (has_target values ≡ false)) }
    {
        let mut marks = vec![in alloc; Mark::Dead; PAGES_PER_BLOCK as usize
            * layout.blocks as usize]?;
        let mut free = free_blocks_of(alloc, layout)?;
        for page in visible.as_slice() {
            marks[*page as usize] = Mark::Visible;
            free[(*page / PAGES_PER_BLOCK) as usize] = false;
        }
        Ok(Values {
            layout: *layout,
            marks,
            free,
            opened: None,
            target: None,
        })
    }

    /// How many blocks are free, the one that is kept for a collection counted.
    pub fn free_blocks(&self) -> u16
        ensures { result ≡ free_count self.now }
    {
        self.free.iter().filter(|free| **free).count() as u16
    }

    /// How many pages of the open block are Erased.
    pub fn open_pages(&self) -> u32
        ensures { result ≡ open_room self.now }
    {
        room_of(self.opened)
    }

    /// How many values can be put: the Erased pages of the open block, and the pages of the free
    /// blocks but for one that is kept while no block is being copied into.
    pub fn free_pages(&self) -> u32
        ensures { result ≡ free_room self.now }
    {
        let kept = if self.target.is_some() { 0 } else { 1 };
        self.open_pages() + PAGES_PER_BLOCK * u32::from(self.free_blocks().saturating_sub(kept))
    }

    /// Marks a page of a value block, which isn't free where the mark isn't Dead.
    pub fn mark(&mut self, page: u32, mark: Mark)
        requires value { IsValueBlock (device_of self.old) (page / 32) }
        requires taken { is_live mark ≡ true → state_at self.old (page / 32) ≢ Free }
        ensures marks { (q : ℕ) → mark_at self.new q ≡ (if q == page then mark else mark_at self.old q) }
        ensures count { live_count self.new + (if is_live_at self.old page then 1 else 0) ≡ live_count self.old + (if is_live mark then 1 else 0) }
        ensures places { SamePlaces self.old self.new }
    {
        self.marks[page as usize] = mark;
    }

    /// The mark of a page of a value block.
    pub fn mark_of(&self, page: u32) -> Mark
        requires { IsValueBlock (device_of self.now) (page / 32) }
        ensures { result ≡ mark_at self.now page }
    {
        self.marks[page as usize]
    }

    // How many pages of a block are visible or pending.
    fn live_pages(&self, block: u16) -> u32
        requires { block < device_of self.now }
        ensures value { result ≡ live_in self.now block }
        ensures most { result ≤ 32 }
    {
        let first = PAGES_PER_BLOCK as usize * block as usize;
        let marks = &self.marks[first..first + PAGES_PER_BLOCK as usize];
        marks.iter().filter(|mark| mark.is_live()).count() as u32
    }

    // Whether a value block is closed.
    fn is_closed(&self, block: u16) -> bool
        requires { block < device_of self.now }
        ensures { result ≡ is_closed_at self.now block }
    {
        !is_at(&self.opened, block) && !is_at(&self.target, block) && !self.free[block as usize]
    }

    /// The closed block with the fewest visible and pending pages, the lowest among equals; none
    /// exactly where no closed block has a dead page.
    pub fn victim(&self) -> Option<u16>
        ensures some { IfSome result (IsVictim self.now) }
        ensures none { IsNone result ↔ ((block : ℕ) → IsClosed self.now block → live_in self.now block ≡ 32) }
    {
        let mut victim = None;
        let mut fewest = PAGES_PER_BLOCK;
        for block in self.layout.first_value_block()..self.layout.blocks {
            if self.is_closed(block) {
                let live = self.live_pages(block);
                if live < fewest {
                    fewest = live;
                    victim = Some(block);
                }
            }
        }
        victim
    }

    /// The value of a page of the value region that is the page of a value of this length. It reads
    /// exactly one page.
    pub fn get<N: Nand>(
        &self,
        alloc: Global,
        nand: &mut N,
        page: u32,
        length: u16,
    ) -> Result<Value, FlashFault>
        requires device { device_of self.now ≡ (N.flash nand.old).blocks }
        requires region { IsValueBlock (device_of self.now) (page / 32) }
        requires stands { has_value (key_in ((N.flash nand.old).image page)) length ((N.flash nand.old).image page) ≡ true }
        ensures value { IfOk result (λ value. value ≡ first_bytes length ((N.flash nand.old).image page)) }
        ensures read { OnOk result (N.flash nand.new ≡ has_read (N.flash nand.old)) }
        ensures few { (N.flash nand.new).reads ≤ (N.flash nand.old).reads + 1 }
        ensures err { IfErr result (λ fault. StopsReading (N.flash nand.old) fault (N.flash nand.new)) }
    {
        let bytes = read_whole(alloc, nand, page)?;
        Ok(value_in(alloc, &bytes, length)?)
    }

    /// The key and the length that the page of a value names. It reads exactly one page.
    pub fn name<N: Nand>(
        &self,
        alloc: Global,
        nand: &mut N,
        page: u32,
    ) -> Result<ValueName, FlashFault>
        requires device { device_of self.now ≡ (N.flash nand.old).blocks }
        requires region { IsValueBlock (device_of self.now) (page / 32) }
        requires stands { is_value ((N.flash nand.old).image page) ≡ true }
        ensures key { IfOk result (λ name. name.key ≡ key_in ((N.flash nand.old).image page)) }
        ensures size { IfOk result (λ name. name.length ≡ size_in ((N.flash nand.old).image page)) }
        ensures read { OnOk result (N.flash nand.new ≡ has_read (N.flash nand.old)) }
        ensures few { (N.flash nand.new).reads ≤ (N.flash nand.old).reads + 1 }
        ensures err { IfErr result (λ fault. StopsReading (N.flash nand.old) fault (N.flash nand.new)) }
    {
        let bytes = read_whole(alloc, nand, page)?;
        Ok(name_in(alloc, &bytes)?)
    }

    // The lowest free block.
    fn lowest_free(&self) -> u16
        requires { free_count self.now ≢ 0 }
        ensures { get_or self.now.free.items result false ≡ true }
    {
        match first_free(&self.free) {
            Some(block) => block as u16,
            None => unreachable!(),
        }
    }

    // Takes a free block and erases it. At a fault nothing is changed here.
    fn take_free<N: Nand>(&mut self, nand: &mut N) -> Result<Filling, NandFault>
        requires free { free_count self.old ≢ 0 }
        requires device { device_of self.old ≡ (N.flash nand.old).blocks }
        ensures ok { IfOk result (λ filling. Takes self.old filling self.new × (N.flash nand.new ≡ erased (N.flash nand.old) filling.block)) }
        ensures keeps { KeepsPages self.old (N.flash nand.old).image (N.flash nand.new).image }
        ensures err { IfErr result (λ fault. Falls (N.flash nand.old) fault (N.flash nand.new)) }
    {
        let block = self.lowest_free();
        nand.erase(block)?;
        self.free[block as usize] = false;
        Ok(Filling { block, next: 0 })
    }

    // The open block, where it has an Erased page; else a free block is the open one now.
    fn open_with_room<N: Nand>(&mut self, nand: &mut N) -> Result<Filling, NandFault>
        requires room { free_room self.old ≢ 0 }
        requires device { device_of self.old ≡ (N.flash nand.old).blocks }
        requires fills { Fills self.old (N.flash nand.old).image }
        ensures ok { IfOk result (λ filling. Opens self.old filling self.new) }
        ensures fills { OnOk result (Fills self.new (N.flash nand.new).image) }
        ensures keeps { KeepsPages self.old (N.flash nand.old).image (N.flash nand.new).image }
        ensures works { OnOk result (Works (N.flash nand.old) (N.flash nand.new) 1 0) }
        ensures exact { OnOk result ((N.flash nand.new).ops ≡ ops_more (N.flash nand.old) (put_cost self.old - 1)) }
        ensures err { IfErr result (λ fault. Falls (N.flash nand.old) fault (N.flash nand.new)) }
    {
        if let Some(opened) = self.opened {
            if opened.next < PAGES_PER_BLOCK {
                return Ok(opened);
            }
        }
        let opened = self.take_free(nand)?;
        self.opened = Some(opened);
        Ok(opened)
    }

    /// Puts a value of at least 129 bytes under a key of at most 32, and gives its page: the next
    /// one of the open block, or the first one of a free block, which is erased before. A page that
    /// a visible or pending entry names stays.
    pub fn put<N: Nand>(
        &mut self,
        alloc: Global,
        nand: &mut N,
        key: &Key,
        value: &Value,
    ) -> Result<u32, FlashFault>
        requires key { length key.now ≤ 32 }
        requires value { 129 ≤ length value.now }
        requires room { free_room self.old ≢ 0 }
        requires device { device_of self.old ≡ (N.flash nand.old).blocks }
        requires fills { Fills self.old (N.flash nand.old).image }
        ensures ok { IfOk result (λ page. Puts self.old page self.new) }
        ensures holds { IfOk result (λ page. HoldsValue key.now value.now ((N.flash nand.new).image page)) }
        ensures free { IfOk result (λ page. (mark_at self.old page ≡ marks.Dead) ⊎ ((N.flash nand.old).image page ≡ Erased)) }
        ensures fills { OnOk result (Fills self.new (N.flash nand.new).image) }
        ensures keeps { KeepsPages self.old (N.flash nand.old).image (N.flash nand.new).image }
        ensures works { OnOk result (Works (N.flash nand.old) (N.flash nand.new) 2 0) }
        ensures exact { OnOk result ((N.flash nand.new).ops ≡ ops_more (N.flash nand.old) (put_cost self.old)) }
        ensures err { IfErr result (λ fault. Stops (N.flash nand.old) fault (N.flash nand.new) 2 0) }
    {
        let bytes = page_of(alloc, key, value)?;
        let mut opened = self.open_with_room(nand)?;
        let page = opened.program(nand, &bytes)?;
        self.opened = Some(opened);
        Ok(page)
    }

    // Takes a free block to copy into, and erases it.
    fn begin_copying<N: Nand>(&mut self, nand: &mut N) -> Result<(), NandFault>
        requires free { free_count self.old ≢ 0 }
        requires none { has_target self.old ≡ false }
        requires device { device_of self.old ≡ (N.flash nand.old).blocks }
        requires fills { Fills self.old (N.flash nand.old).image }
        ensures ok { OnOk result (Copies self.old None self.new) }
        ensures fills { OnOk result (Fills self.new (N.flash nand.new).image) }
        ensures keeps { KeepsPages self.old (N.flash nand.old).image (N.flash nand.new).image }
        ensures works { OnOk result (Works (N.flash nand.old) (N.flash nand.new) 1 0) }
        ensures exact { OnOk result ((N.flash nand.new).ops ≡ ops_more (N.flash nand.old) 1) }
        ensures err { IfErr result (λ fault. Falls (N.flash nand.old) fault (N.flash nand.new)) }
    {
        let target = self.take_free(nand)?;
        self.target = Some(target);
        Ok(())
    }

    /// One operation of a copy of a visible or pending page: takes a free block and erases it, where
    /// none is being copied into, and answers none; else the page is copied into the next page of
    /// that block, which is answered.
    pub fn copy<N: Nand>(
        &mut self,
        alloc: Global,
        nand: &mut N,
        page: u32,
    ) -> Result<Option<u32>, FlashFault>
        requires live { is_live_at self.old page ≡ true }
        requires block { (free_count self.old ≢ 0) ⊎ (has_target self.old ≡ true) }
        requires few { copied self.old < 32 }
        requires device { device_of self.old ≡ (N.flash nand.old).blocks }
        requires stands { is_value ((N.flash nand.old).image page) ≡ true }
        requires fills { Fills self.old (N.flash nand.old).image }
        ensures ok { IfOk result (λ answer. Copies self.old answer self.new) }
        ensures copied { IfOk result (λ answer. IfSome answer (λ at. CopiesPage (N.flash nand.old).image page at (N.flash nand.new).image)) }
        ensures fills { OnOk result (Fills self.new (N.flash nand.new).image) }
        ensures keeps { KeepsPages self.old (N.flash nand.old).image (N.flash nand.new).image }
        ensures works { OnOk result (Works (N.flash nand.old) (N.flash nand.new) 1 1) }
        ensures exact { OnOk result ((N.flash nand.new).ops ≡ ops_more (N.flash nand.old) 1) }
        ensures err { IfErr result (λ fault. Stops (N.flash nand.old) fault (N.flash nand.new) 1 1) }
    {
        match self.target {
            None => {
                self.begin_copying(nand)?;
                Ok(None)
            }
            Some(target) => Ok(Some(self.copy_into(alloc, nand, target, page)?)),
        }
    }

    // Copies a page into the next page of the block copied into.
    fn copy_into<N: Nand>(
        &mut self,
        alloc: Global,
        nand: &mut N,
        target: Filling,
        page: u32,
    ) -> Result<u32, FlashFault>
        requires target { self.old.target ≡ Some target }
        requires live { is_live_at self.old page ≡ true }
        requires few { target.next < 32 }
        requires device { device_of self.old ≡ (N.flash nand.old).blocks }
        requires stands { is_value ((N.flash nand.old).image page) ≡ true }
        requires fills { Fills self.old (N.flash nand.old).image }
        ensures ok { IfOk result (λ at. Copies self.old (Some at) self.new) }
        ensures copied { IfOk result (λ at. CopiesPage (N.flash nand.old).image page at (N.flash nand.new).image) }
        ensures fills { OnOk result (Fills self.new (N.flash nand.new).image) }
        ensures keeps { KeepsPages self.old (N.flash nand.old).image (N.flash nand.new).image }
        ensures works { OnOk result (Works (N.flash nand.old) (N.flash nand.new) 1 1) }
        ensures exact { OnOk result ((N.flash nand.new).ops ≡ ops_more (N.flash nand.old) 1) }
        ensures err { IfErr result (λ fault. Stops (N.flash nand.old) fault (N.flash nand.new) 1 1) }
    {
        let bytes = read_whole(alloc, nand, page)?;
        let mut filling = target;
        let copy = filling.program(nand, &bytes)?;
        self.target = Some(filling);
        Ok(copy)
    }

    /// Erases a closed block without visible and pending pages. It is free then, and the copying is
    /// over: the block copied into is the open one where no open block has an Erased page, else it
    /// is closed.
    pub fn clear<N: Nand>(&mut self, nand: &mut N, block: u16) -> Result<(), NandFault>
        requires closed { IsClosed self.old block }
        requires dead { (page : ℕ) → page / 32 ≡ block → is_live_at self.old page ≡ false }
        requires device { device_of self.old ≡ (N.flash nand.old).blocks }
        ensures ok { OnOk result (Clears self.old block self.new) }
        ensures erased { OnOk result (N.flash nand.new ≡ erased (N.flash nand.old) block) }
        ensures fills { OnOk result (Fills self.old (N.flash nand.old).image → Fills self.new (N.flash nand.new).image) }
        ensures keeps { KeepsPages self.old (N.flash nand.old).image (N.flash nand.new).image }
        ensures left { LeftByErase (N.flash nand.old).image block (N.flash nand.new).image }
        ensures err { IfErr result (λ fault. Falls (N.flash nand.old) fault (N.flash nand.new)) }
    {
        nand.erase(block)?;
        self.free[block as usize] = true;
        self.opened = opened_after(self.opened, self.target);
        self.target = None;
        Ok(())
    }
}

// How many pages of the block that is filled are left.
fn room_of(filling: Option<Filling>) -> u32
    ensures { result ≡ room_in filling }
{
    match filling {
        Some(filling) => PAGES_PER_BLOCK.saturating_sub(filling.next),
        None => 0,
    }
}

// The block that is open when the copying is over.
fn opened_after(opened: Option<Filling>, target: Option<Filling>) -> Option<Filling>
    ensures { result ≡ opened_when_over opened target }
{
    if target.is_some() && room_of(opened) == 0 {
        target
    } else {
        opened
    }
}

// Whether this is the block that is filled.
fn is_at(filling: &Option<Filling>, block: u16) -> bool
    ensures { result ≡ is_in filling.now block }
{
    match filling {
        Some(filling) => filling.block == block,
        None => false,
    }
}

// The first block that is free.
fn first_free(free: &[bool]) -> Option<usize>
    ensures { result ≡ position (λ f. f) free.now }
{
    free.iter().position(|free| *free)
}

// Of all blocks, the value blocks are free.
fn free_blocks_of(alloc: Global, layout: &Layout) -> Result<Vec<bool>, Memory>
    ensures blocks { IfOk result (λ free. length free.items ≡ layout.now.blocks) }
    ensures free { IfOk result (λ free. (block : ℕ) → block < layout.now.blocks → get_or free.items block false ≡ nat_le (first_value_block_in layout.now.blocks) block) }
{
    let first = layout.first_value_block();
    let mut free = Vec::new(alloc);
    for block in 0..layout.blocks {
        free.push(block >= first)?;
    }
    Ok(free)
}

// Reads a Whole page.
fn read_whole<N: Nand>(alloc: Global, nand: &mut N, page: u32) -> Result<PageData, FlashFault>
    requires range { page < 32 * (N.flash nand.old).blocks }
    requires whole { is_whole ((N.flash nand.old).image page) ≡ true }
    ensures value { IfOk result (λ bytes. (N.flash nand.old).image page ≡ Whole bytes) }
    ensures read { OnOk result (N.flash nand.new ≡ has_read (N.flash nand.old)) }
    ensures few { (N.flash nand.new).reads ≤ (N.flash nand.old).reads + 1 }
    ensures err { IfErr result (λ fault. StopsReading (N.flash nand.old) fault (N.flash nand.new)) }
{
    let mut bytes = PageData::new(alloc)?;
    match nand.read(page, &mut bytes)? {
        PageKind::Whole => Ok(bytes),
        PageKind::Erased | PageKind::Cut => unreachable!(),
    }
}
