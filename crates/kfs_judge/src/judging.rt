// The objects of a device are judged, before anything is changed.
ghost use Rattle.std.specs.Prelude.{◌≡◌, ◌≤◌, ◌<◌, ◌-◌, ◌^◌, true, length, OnOk, IfOk, IfErr};
ghost use Rattle.std.specs.FinMap as objects;
ghost use Rattle.kv_device.specs.Machine.{none_open};
ghost use Rattle.kv_device.specs.Calls.{Ages};
ghost use Rattle.kv_device.specs.Objects.{Objects};
ghost use Rattle.kfs_damages.specs.Damages.{IsClear, HasHead, next_in};
ghost use Rattle.kfs_judge.specs.Judging.{heard, room_in, JudgeFails};
ghost use Rattle.kfs_judge.specs.Judged.{FirstStrange, IsJudged, is_strange, head_of, later_head, limits_of};
ghost use Rattle.kfs_judge.specs.Rows.{AreRows};

use crate::JudgeFault;
use crate::kinds::{least_chunk, least_entry, least_inode_of_all, least_orphan, taken};
use crate::reading::gather;
use crate::row::Row;
use crate::tables::tables_of;
use kfs_objects::Super;
use kv_base::{Damage, Memory};
use kv_device::Device;
use std::alloc::Global;

/// The least number that a super of a mounted file system doesn't have.
const TOO_HIGH: u64 = 1 << 62;

/// How many keys and large values a device has room for.
#[derive(Clone, Copy, Debug)]
pub struct Room {
    pub keys: u32,
    pub pages: u32,
}

fn later_head(found: Option<Super>, row: &Row) -> Option<Super>
    ensures { result ≡ later_head found row.now }
{
    match row {
        Row::Head { head } => *head,
        _ => found,
    }
}

/// What the row of the super says, where it reads.
fn stored_head(rows: &[Row]) -> Option<Super>
    ensures { result ≡ head_of rows.now }
{
    let mut found = None;
    for row in rows {
        found = later_head(found, row);
    }
    found
}

fn is_strange(row: &Row) -> bool
    ensures { result ≡ is_strange row.now }
{
    match row {
        Row::Strange => true,
        _ => false,
    }
}

/// The place of the first object whose key is of no form.
fn first_strange(rows: &[Row]) -> Option<usize>
    ensures { FirstStrange rows.now result }
{
    for (place, row) in rows.iter().enumerate() {
        if is_strange(row) {
            return Some(place);
        }
    }
    None
}

/// The first damage of nodes, after the super and the keys.
fn node_damage(alloc: Global, rows: &[Row], next: u64, room: Room) -> Result<Option<Damage>, Memory>
    requires few { length rows.now ≤ 68544 }
    requires formed { FirstStrange rows.now None }
    ensures { IfOk result (λ damage. (m : Objects) → AreRows (objects.entries m) rows.now → HasHead m → next ≡ next_in m → IsJudged (limits_of room) m damage) }
{
    let tables = tables_of(alloc, rows)?;
    if let Some(node) = least_inode_of_all(&tables, next, rows) {
        return Ok(Some(Damage::Inode(node)));
    }
    if let Some(node) = least_entry(&tables, rows) {
        return Ok(Some(Damage::Entry(node)));
    }
    if let Some(node) = least_chunk(&tables, rows) {
        return Ok(Some(Damage::Chunk(node)));
    }
    if let Some(node) = least_orphan(&tables, rows) {
        return Ok(Some(Damage::Orphan(node)));
    }
    let taken = taken(&tables, rows);
    if taken.keys > room.keys as u64 || taken.chunks > room.pages as u64 {
        return Ok(Some(Damage::Room(taken.keys)));
    }
    Ok(None)
}

/// The first damage of the objects that have these rows.
fn first_damage(alloc: Global, rows: &[Row], room: Room) -> Result<Option<Damage>, Memory>
    requires { length rows.now ≤ 68544 }
    ensures { IfOk result (λ damage. (m : Objects) → AreRows (objects.entries m) rows.now → IsJudged (limits_of room) m damage) }
{
    let Some(head) = stored_head(rows) else {
        return Ok(Some(Damage::Super(0)));
    };
    if head.changes >= TOO_HIGH {
        return Ok(Some(Damage::Super(0)));
    }
    if head.next >= TOO_HIGH {
        return Ok(Some(Damage::Super(0)));
    }
    if let Some(place) = first_strange(rows) {
        return Ok(Some(Damage::Object(place as u64)));
    }
    Ok(node_damage(alloc, rows, head.next, room)?)
}

/// Reads all objects of a device with no transaction open, and finds the first damage in them. Nothing
/// is changed.
pub fn judge<D: Device>(alloc: Global, device: &mut D) -> Result<(), JudgeFault>
    requires age { D.age device.old < 2 ^ 63 - 2 ^ 39 }
    requires up { (D.machine device.old).up ≡ true }
    requires idle { (D.machine device.old).pending ≡ none_open }
    requires room { (D.machine device.old).room_keys ≤ 68544 }
    ensures clear { OnOk result (IsClear (room_in (D.machine device.old)) (heard (D.machine device.old).stable)) }
    ensures head { OnOk result (HasHead (D.machine device.old).stable) }
    ensures same { OnOk result (D.machine device.new ≡ D.machine device.old) }
    ensures err { IfErr result (λ fault. JudgeFails (D.machine device.old) fault (D.machine device.new)) }
    ensures age { Ages (D.age device.old) (D.age device.new) 0 }
{
    let (keys, pages) = device.limits();
    let rows = gather(alloc, device)?;
    match first_damage(alloc, &rows, Room { keys, pages })? {
        None => Ok(()),
        Some(damage) => Err(JudgeFault::Damaged(damage)),
    }
}
