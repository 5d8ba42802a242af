// The newest anchor with its runs, and the anchors behind it.
ghost use Rattle.std.specs.Prelude.{◌≡◌, ◌≢◌, ◌⊎◌, ◌↔◌, ◌≤◌, ◌<◌, ◌+◌, ◌*◌, ◌/◌, ◌^◌, [], true, length, IfOk, OnOk, IfErr, IsSome, Some, option_copied};
ghost use Rattle.kv_nand.specs.Working.{Works, Stops, ops_more};
ghost use Rattle.kssd_model.specs.Groups.{next_block};
ghost use Rattle.kssd_layout.specs.Numbers.{max_keys_in};
ghost use Rattle.kssd_model.specs.Rising.{is_rising, merged};
ghost use Rattle.kssd_image.specs.Stages.{without_marks, shown_by};
ghost use Rattle.kssd_image.specs.Whole.{log_of, age_by, age_in};
ghost use Rattle.kssd_anchor.specs.Places.{SameBehind, write_cost};
ghost use Rattle.kssd_log.specs.Ring.{begun};
ghost use Rattle.kssd_levels.specs.Levels.{levels_map, named_blocks, infos_of, device_of, first_entries, MayName};
ghost use Rattle.kssd_compact.specs.Starting.{frozen_entries};
ghost use Rattle.kssd_root.specs.Standing.{IsAnchored, IsRoot, EndsAt, table_of};
ghost use Rattle.kssd_root.specs.Mapping.{IsKept};
ghost use Rattle.kssd_root.specs.Costs.{run_cost, merge_cost, most_place_cost, usual_place_cost};
ghost use Rattle.kssd_root.specs.Following.{KeepsNamed, following, MayFollow, MayBegin, with_table, ShowAlike, with_log, IsSplit, SameLog, IsCleanBlock};

use crate::running::write_run;
use kssd_anchor::write;
use kssd_layout::Layout;
use kssd_levels::{FULL_ONE, JobKind, Levels, MAX_ZERO};
use kssd_log::Ring;
use kssd_model::Anchor;
use kssd_table::Frozen;
use kv_base::Memory;
use kv_nand::{FlashFault, Nand};
use std::alloc::Global;

/// The newest anchor with its page, and its runs.
#[derive(Debug, Drop)]
pub struct Root {
    pub layout: Layout,
    pub page: u32,
    pub anchor: Anchor,
    pub levels: Levels,
}

// The anchor behind this one, which names the runs of these levels, and a log that begins in this block.
fn next_anchor(
    alloc: Global,
    anchor: &Anchor,
    levels: &Levels,
    log_block: u16,
    log_seq: u64,
) -> Result<Anchor, Memory>
    requires number { (anchor.now.number + 2 ^ 19 ≤ 2 ^ 63) × (anchor.now.next_run + 2 ^ 19 ≤ 2 ^ 63) }
    ensures next { IfOk result (λ next. next ≡ following anchor.now (infos_of levels.now) log_block log_seq) }
    ensures named { OnOk result (MayName (device_of levels.now) (infos_of levels.now)) }
{
    Ok(Anchor {
        number: anchor.number + 1,
        blocks: anchor.blocks,
        next_run: anchor.next_run + 1,
        log_block,
        log_seq,
        runs: levels.infos(alloc)?,
    })
}

impl Root {
    // Writes the anchor behind the newest, which names the levels and this log.
    pub(crate) fn name_levels<N: Nand>(
        &mut self,
        alloc: Global,
        nand: &mut N,
        log_block: u16,
        log_seq: u64,
    ) -> Result<(), FlashFault>
        requires device { self.old.layout.blocks ≡ (N.flash nand.old).blocks }
        requires anchored { IsAnchored self.old.page self.old.anchor (N.flash nand.old).blocks (N.flash nand.old).image }
        requires levels { MayFollow self.old.levels self.old.anchor (N.flash nand.old).blocks (N.flash nand.old).image }
        requires log { MayBegin log_block log_seq self.old.levels self.old.anchor (N.flash nand.old).image }
        requires number { age_by (N.flash nand.old).image self.old.anchor + 2 ^ 19 ≤ 2 ^ 63 }
        ensures root { OnOk result (IsRoot self.new (N.flash nand.new).blocks (N.flash nand.new).image) }
        ensures next { OnOk result (self.new.anchor ≡ following self.old.anchor (infos_of self.old.levels) log_block log_seq) }
        ensures levels { OnOk result (self.new.levels ≡ self.old.levels) }
        ensures behind { SameBehind (N.flash nand.old).image (N.flash nand.new).image }
        ensures kept { IsKept (N.flash nand.old).blocks (N.flash nand.old).image (N.flash nand.new).image }
        ensures aged { age_in (N.flash nand.new).image ≤ age_by (N.flash nand.old).image self.old.anchor + 1 }
        ensures works { OnOk result (Works (N.flash nand.old) (N.flash nand.new) 2 32) }
        ensures exact { OnOk result ((N.flash nand.new).ops ≡ ops_more (N.flash nand.old) (write_cost (N.flash nand.old).image (Some self.old.page))) }
        ensures stops { IfErr result (λ fault. Stops (N.flash nand.old) fault (N.flash nand.new) 2 32) }
        ensures within { IfErr result (λ fault. Stops (N.flash nand.old) fault (N.flash nand.new) (write_cost (N.flash nand.old).image (Some self.old.page)) 32) }
    {
        let next = next_anchor(alloc, &self.anchor, &self.levels, log_block, log_seq)?;
        self.page = write(alloc, nand, Some(self.page), &next)?;
        self.anchor = next;
        Ok(())
    }

    // Writes the run of a job and puts it in place of what the job read. The newest anchor doesn't
    // name it yet.
    fn run_job<N: Nand>(
        &mut self,
        alloc: Global,
        nand: &mut N,
        kind: JobKind,
        table: Option<&Frozen>,
    ) -> Result<(), FlashFault>
        requires root { IsRoot self.old (N.flash nand.old).blocks (N.flash nand.old).image }
        requires kind { kind ≢ JobKind.Collect }
        requires table { (kind ≡ JobKind.Flush) ↔ IsSome table }
        requires room { kind ≡ JobKind.Flush → length self.old.levels.zero ≤ 3 }
        requires few { kind ≡ JobKind.Zero → first_entries self.old.levels.one ≤ 4096 }
        requires rising { kind ≡ JobKind.Flush → is_rising (frozen_entries (option_copied table)) ≡ true }
        requires keys { kind ≡ JobKind.Flush → length (without_marks (merged (frozen_entries (option_copied table)) (levels_map self.old.levels (N.flash nand.old).image))) ≤ max_keys_in (N.flash nand.old).blocks }
        requires entries { length (frozen_entries (option_copied table)) ≤ 2048 }
        ensures same { OnOk result (self.new ≡ record self.old { levels = self.new.levels }) }
        ensures levels { OnOk result (MayFollow self.new.levels self.old.anchor (N.flash nand.new).blocks (N.flash nand.new).image) }
        ensures over { OnOk result (ShowAlike (with_table kind (frozen_entries (option_copied table.entry)) (levels_map self.old.levels (N.flash nand.old).image)) (levels_map self.new.levels (N.flash nand.new).image)) }
        ensures zero { OnOk result (kind ≡ JobKind.Zero → self.new.levels.zero ≡ []) }
        ensures one { OnOk result (kind ≡ JobKind.One → self.new.levels.one ≡ []) }
        ensures named { KeepsNamed (N.flash nand.old).blocks (named_blocks self.old.levels) (N.flash nand.old).image (N.flash nand.new).image }
        ensures works { OnOk result (Works (N.flash nand.old) (N.flash nand.new) (run_cost kind (N.flash nand.old).blocks) (2 ^ 64)) }
        ensures stops { IfErr result (λ fault. Stops (N.flash nand.old) fault (N.flash nand.new) (run_cost kind (N.flash nand.old).blocks) (2 ^ 64)) }
    {
        let run = write_run(alloc, nand, kind, &self.levels, table, self.anchor.next_run)?;
        self.levels.install(alloc, kind, run)?;
        Ok(())
    }

    // Merges two levels, and names the run that comes of it. The log stays as it is.
    fn merge<N: Nand>(
        &mut self,
        alloc: Global,
        nand: &mut N,
        kind: JobKind,
    ) -> Result<(), FlashFault>
        requires root { IsRoot self.old (N.flash nand.old).blocks (N.flash nand.old).image }
        requires kind { (kind ≡ JobKind.Zero) ⊎ (kind ≡ JobKind.One) }
        requires few { kind ≡ JobKind.Zero → first_entries self.old.levels.one ≤ 4096 }
        requires number { age_by (N.flash nand.old).image self.old.anchor + 2 ^ 19 ≤ 2 ^ 63 }
        ensures root { OnOk result (IsRoot self.new (N.flash nand.new).blocks (N.flash nand.new).image) }
        ensures log { OnOk result (SameLog self.old.anchor (N.flash nand.old).image self.new.anchor (N.flash nand.new).image) }
        ensures over { OnOk result (ShowAlike (levels_map self.old.levels (N.flash nand.old).image) (levels_map self.new.levels (N.flash nand.new).image)) }
        ensures zero { OnOk result (kind ≡ JobKind.Zero → self.new.levels.zero ≡ []) }
        ensures one { OnOk result (kind ≡ JobKind.One → self.new.levels.one ≡ []) }
        ensures kept { IsKept (N.flash nand.old).blocks (N.flash nand.old).image (N.flash nand.new).image }
        ensures aged { age_in (N.flash nand.new).image ≤ age_by (N.flash nand.old).image self.old.anchor + 1 }
        ensures works { OnOk result (Works (N.flash nand.old) (N.flash nand.new) (merge_cost kind (N.flash nand.old).blocks) (2 ^ 64)) }
        ensures stops { IfErr result (λ fault. Stops (N.flash nand.old) fault (N.flash nand.new) (merge_cost kind (N.flash nand.old).blocks) (2 ^ 64)) }
    {
        self.run_job(alloc, nand, kind, None)?;
        let block = self.anchor.log_block;
        let seq = self.anchor.log_seq;
        self.name_levels(alloc, nand, block, seq)?;
        Ok(())
    }

    // Merges level 1 into the base where it is full.
    fn push_down<N: Nand>(&mut self, alloc: Global, nand: &mut N) -> Result<(), FlashFault>
        requires root { IsRoot self.old (N.flash nand.old).blocks (N.flash nand.old).image }
        requires number { age_by (N.flash nand.old).image self.old.anchor + 2 ^ 19 ≤ 2 ^ 63 }
        ensures root { OnOk result (IsRoot self.new (N.flash nand.new).blocks (N.flash nand.new).image) }
        ensures log { OnOk result (SameLog self.old.anchor (N.flash nand.old).image self.new.anchor (N.flash nand.new).image) }
        ensures over { OnOk result (ShowAlike (levels_map self.old.levels (N.flash nand.old).image) (levels_map self.new.levels (N.flash nand.new).image)) }
        ensures few { OnOk result (first_entries self.new.levels.one ≤ 4096) }
        ensures kept { IsKept (N.flash nand.old).blocks (N.flash nand.old).image (N.flash nand.new).image }
        ensures aged { age_in (N.flash nand.new).image ≤ age_by (N.flash nand.old).image self.old.anchor + 1 }
        ensures works { OnOk result (Works (N.flash nand.old) (N.flash nand.new) (merge_cost JobKind.One (N.flash nand.old).blocks) (2 ^ 64)) }
        ensures stops { IfErr result (λ fault. Stops (N.flash nand.old) fault (N.flash nand.new) (merge_cost JobKind.One (N.flash nand.old).blocks) (2 ^ 64)) }
    {
        if self.levels.one_entries() <= FULL_ONE {
            return Ok(());
        }
        self.merge(alloc, nand, JobKind::One)?;
        Ok(())
    }

    /// Merges levels where level 0 has no place for one run more.
    pub fn make_room<N: Nand>(&mut self, alloc: Global, nand: &mut N) -> Result<(), FlashFault>
        requires root { IsRoot self.old (N.flash nand.old).blocks (N.flash nand.old).image }
        requires number { age_by (N.flash nand.old).image self.old.anchor + 2 ^ 20 ≤ 2 ^ 63 }
        ensures root { OnOk result (IsRoot self.new (N.flash nand.new).blocks (N.flash nand.new).image) }
        ensures log { OnOk result (SameLog self.old.anchor (N.flash nand.old).image self.new.anchor (N.flash nand.new).image) }
        ensures over { OnOk result (ShowAlike (levels_map self.old.levels (N.flash nand.old).image) (levels_map self.new.levels (N.flash nand.new).image)) }
        ensures room { OnOk result (length self.new.levels.zero ≤ 3) }
        ensures kept { IsKept (N.flash nand.old).blocks (N.flash nand.old).image (N.flash nand.new).image }
        ensures aged { age_in (N.flash nand.new).image ≤ age_by (N.flash nand.old).image self.old.anchor + 2 }
        ensures works { OnOk result (Works (N.flash nand.old) (N.flash nand.new) (merge_cost JobKind.One (N.flash nand.old).blocks + merge_cost JobKind.Zero (N.flash nand.old).blocks) (2 ^ 64)) }
        ensures stops { IfErr result (λ fault. Stops (N.flash nand.old) fault (N.flash nand.new) (merge_cost JobKind.One (N.flash nand.old).blocks + merge_cost JobKind.Zero (N.flash nand.old).blocks) (2 ^ 64)) }
        ensures idle { length self.old.levels.zero ≤ 3 → (N.flash nand.new).ops ≡ (N.flash nand.old).ops }
    {
        if self.levels.level(0).len() < MAX_ZERO {
            return Ok(());
        }
        self.push_down(alloc, nand)?;
        self.merge(alloc, nand, JobKind::Zero)?;
        Ok(())
    }

    // Erases the ring block behind the one in which the log ends, for the log of the next anchor.
    fn begin_ring<N: Nand>(
        &self,
        nand: &mut N,
        last_block: u16,
        next_seq: u64,
    ) -> Result<Ring, FlashFault>
        requires root { IsRoot self.now (N.flash nand.old).blocks (N.flash nand.old).image }
        requires last { last_block ≡ (log_of (N.flash nand.old).image self.now.anchor).end / 32 }
        requires next { next_seq ≡ (log_of (N.flash nand.old).image self.now.anchor).next }
        requires number { age_by (N.flash nand.old).image self.now.anchor + 2 ^ 19 ≤ 2 ^ 63 }
        ensures ring { IfOk result (λ ring. ring ≡ begun (next_block last_block) next_seq) }
        ensures clean { OnOk result (IsCleanBlock (next_block last_block) (N.flash nand.new).image) }
        ensures low { (2 ≤ next_block last_block) × (next_block last_block ≤ 19) }
        ensures root { OnOk result (IsRoot self.now (N.flash nand.new).blocks (N.flash nand.new).image) }
        ensures table { OnOk result (table_of (N.flash nand.new).image self.now.anchor ≡ table_of (N.flash nand.old).image self.now.anchor) }
        ensures age { OnOk result (age_by (N.flash nand.new).image self.now.anchor ≡ age_by (N.flash nand.old).image self.now.anchor) }
        ensures kept { IsKept (N.flash nand.old).blocks (N.flash nand.old).image (N.flash nand.new).image }
        ensures aged { age_in (N.flash nand.new).image ≤ age_by (N.flash nand.old).image self.now.anchor }
        ensures works { OnOk result (Works (N.flash nand.old) (N.flash nand.new) 1 0) }
        ensures stops { IfErr result (λ fault. Stops (N.flash nand.old) fault (N.flash nand.new) 1 0) }
    {
        let ring = Ring::begin(nand, last_block, next_seq)?;
        Ok(ring)
    }

    // Begins a new log where that of the newest anchor has no entries.
    fn begin_log<N: Nand>(
        &mut self,
        alloc: Global,
        nand: &mut N,
        last_block: u16,
        next_seq: u64,
    ) -> Result<Ring, FlashFault>
        requires root { IsRoot self.old (N.flash nand.old).blocks (N.flash nand.old).image }
        requires table { table_of (N.flash nand.old).image self.old.anchor ≡ [] }
        requires last { last_block ≡ (log_of (N.flash nand.old).image self.old.anchor).end / 32 }
        requires next { next_seq ≡ (log_of (N.flash nand.old).image self.old.anchor).next }
        requires number { age_by (N.flash nand.old).image self.old.anchor + 2 ^ 19 ≤ 2 ^ 63 }
        ensures root { OnOk result (IsRoot self.new (N.flash nand.new).blocks (N.flash nand.new).image) }
        ensures ring { IfOk result (λ ring. ring ≡ begun (next_block last_block) next_seq) }
        ensures log { OnOk result (EndsAt (begun (next_block last_block) next_seq) self.new.anchor (N.flash nand.new).image) }
        ensures table { OnOk result (table_of (N.flash nand.new).image self.new.anchor ≡ []) }
        ensures kept { IsKept (N.flash nand.old).blocks (N.flash nand.old).image (N.flash nand.new).image }
        ensures aged { age_in (N.flash nand.new).image ≤ age_by (N.flash nand.old).image self.old.anchor + 1 }
        ensures works { OnOk result (Works (N.flash nand.old) (N.flash nand.new) 3 (2 ^ 64)) }
        ensures stops { IfErr result (λ fault. Stops (N.flash nand.old) fault (N.flash nand.new) 3 (2 ^ 64)) }
    {
        let ring = self.begin_ring(nand, last_block, next_seq)?;
        self.name_levels(alloc, nand, ring.block(), next_seq)?;
        Ok(ring)
    }

    // Writes the table of the log as the newest run of level 0, and begins a new log.
    fn flush_table<N: Nand>(
        &mut self,
        alloc: Global,
        nand: &mut N,
        table: &Frozen,
        last_block: u16,
        next_seq: u64,
    ) -> Result<Ring, FlashFault>
        requires root { IsRoot self.old (N.flash nand.old).blocks (N.flash nand.old).image }
        requires table { table.now ≡ table_of (N.flash nand.old).image self.old.anchor }
        requires few { length table.now ≤ 2048 }
        requires room { length self.old.levels.zero ≤ 3 }
        requires last { last_block ≡ (log_of (N.flash nand.old).image self.old.anchor).end / 32 }
        requires next { next_seq ≡ (log_of (N.flash nand.old).image self.old.anchor).next }
        requires number { age_by (N.flash nand.old).image self.old.anchor + 2 ^ 19 ≤ 2 ^ 63 }
        ensures root { OnOk result (IsRoot self.new (N.flash nand.new).blocks (N.flash nand.new).image) }
        ensures ring { IfOk result (λ ring. ring ≡ begun (next_block last_block) next_seq) }
        ensures log { OnOk result (EndsAt (begun (next_block last_block) next_seq) self.new.anchor (N.flash nand.new).image) }
        ensures table { OnOk result (table_of (N.flash nand.new).image self.new.anchor ≡ []) }
        ensures kept { IsKept (N.flash nand.old).blocks (N.flash nand.old).image (N.flash nand.new).image }
        ensures aged { age_in (N.flash nand.new).image ≤ age_by (N.flash nand.old).image self.old.anchor + 1 }
        ensures works { OnOk result (Works (N.flash nand.old) (N.flash nand.new) (run_cost JobKind.Flush (N.flash nand.old).blocks + 3) (2 ^ 64)) }
        ensures stops { IfErr result (λ fault. Stops (N.flash nand.old) fault (N.flash nand.new) (run_cost JobKind.Flush (N.flash nand.old).blocks + 3) (2 ^ 64)) }
    {
        let ring = self.begin_ring(nand, last_block, next_seq)?;
        self.run_job(alloc, nand, JobKind::Flush, Some(table))?;
        self.name_levels(alloc, nand, ring.block(), next_seq)?;
        Ok(ring)
    }

    /// Writes a table of the log's earlier part as the newest run of level 0, which has place for it,
    /// and names the log's later part, which begins in this block with this number.
    pub fn flush_older<N: Nand>(
        &mut self,
        alloc: Global,
        nand: &mut N,
        table: &Frozen,
        log_block: u16,
        log_seq: u64,
    ) -> Result<(), FlashFault>
        requires root { IsRoot self.old (N.flash nand.old).blocks (N.flash nand.old).image }
        requires split { IsSplit table.now (with_log self.old.anchor log_block log_seq) self.old (N.flash nand.old).blocks (N.flash nand.old).image }
        requires few { length table.now ≤ 2048 }
        requires room { length self.old.levels.zero ≤ 3 }
        requires number { age_by (N.flash nand.old).image self.old.anchor + 2 ^ 19 ≤ 2 ^ 63 }
        ensures root { OnOk result (IsRoot self.new (N.flash nand.new).blocks (N.flash nand.new).image) }
        ensures log { OnOk result (SameLog (with_log self.old.anchor log_block log_seq) (N.flash nand.old).image self.new.anchor (N.flash nand.new).image) }
        ensures kept { IsKept (N.flash nand.old).blocks (N.flash nand.old).image (N.flash nand.new).image }
        ensures aged { age_in (N.flash nand.new).image ≤ age_by (N.flash nand.old).image self.old.anchor + 1 }
        ensures works { OnOk result (Works (N.flash nand.old) (N.flash nand.new) (merge_cost JobKind.Flush (N.flash nand.old).blocks) (2 ^ 64)) }
        ensures stops { IfErr result (λ fault. Stops (N.flash nand.old) fault (N.flash nand.new) (merge_cost JobKind.Flush (N.flash nand.old).blocks) (2 ^ 64)) }
    {
        self.run_job(alloc, nand, JobKind::Flush, Some(table))?;
        self.name_levels(alloc, nand, log_block, log_seq)?;
        Ok(())
    }

    /// Writes the table of the log as the newest run of level 0, where it has entries, after merges
    /// where level 0 has no place for it. A new log begins, in the ring block behind the last.
    pub fn flush<N: Nand>(
        &mut self,
        alloc: Global,
        nand: &mut N,
        table: &Frozen,
        last_block: u16,
        next_seq: u64,
    ) -> Result<Ring, FlashFault>
        requires root { IsRoot self.old (N.flash nand.old).blocks (N.flash nand.old).image }
        requires table { table.now ≡ table_of (N.flash nand.old).image self.old.anchor }
        requires last { last_block ≡ (log_of (N.flash nand.old).image self.old.anchor).end / 32 }
        requires next { next_seq ≡ (log_of (N.flash nand.old).image self.old.anchor).next }
        requires number { age_by (N.flash nand.old).image self.old.anchor + 2 ^ 20 ≤ 2 ^ 63 }
        ensures root { OnOk result (IsRoot self.new (N.flash nand.new).blocks (N.flash nand.new).image) }
        ensures ring { IfOk result (λ ring. ring ≡ begun (next_block last_block) next_seq) }
        ensures log { OnOk result (EndsAt (begun (next_block last_block) next_seq) self.new.anchor (N.flash nand.new).image) }
        ensures table { OnOk result (table_of (N.flash nand.new).image self.new.anchor ≡ []) }
        ensures kept { IsKept (N.flash nand.old).blocks (N.flash nand.old).image (N.flash nand.new).image }
        ensures aged { age_in (N.flash nand.new).image ≤ age_by (N.flash nand.old).image self.old.anchor + 3 }
        ensures works { OnOk result (Works (N.flash nand.old) (N.flash nand.new) (most_place_cost (N.flash nand.old).blocks) (2 ^ 64)) }
        ensures stops { IfErr result (λ fault. Stops (N.flash nand.old) fault (N.flash nand.new) (most_place_cost (N.flash nand.old).blocks) (2 ^ 64)) }
        ensures usual { length self.old.levels.zero ≤ 3 → (N.flash nand.new).ops ≤ (N.flash nand.old).ops + usual_place_cost }
    {
        if table.len() == 0 {
            let ring = self.begin_log(alloc, nand, last_block, next_seq)?;
            return Ok(ring);
        }
        self.make_room(alloc, nand)?;
        let ring = self.flush_table(alloc, nand, table, last_block, next_seq)?;
        Ok(ring)
    }
}
