// An entry from the front of bytes.
ghost use Rattle.std.specs.Prelude.{◌≡◌, ◌<◌, ◌≤◌, ◌+◌, ◌^◌, List, length, true, is_ok, IfOk, Ok};
ghost use Rattle.std.specs.Int.{w16, w32};
ghost use Rattle.kv_base.specs.Sizes.{IsKey};
ghost use Rattle.kssd_entry.specs.Sizes.{IsInline, IsPageLength};
ghost use Rattle.kssd_entry.specs.Spelling.{FitsEntry};
ghost use Rattle.kssd_entry.specs.Borrowed.{entry_in};
ghost use Rattle.kssd_entry.specs.Reading.{EntryGives, EntryIs, number_at, key_at, inline_at, pointer_at, body_at, entry_at, bytes_at};

use crate::borrowed::{BorrowedBody, BorrowedEntry};
use crate::fault::EntryFault;
use crate::{Entry, PageLength};
use kv_base::Memory;
use std::alloc::Global;

fn u16_at(bytes: &[u8]) -> Result<(u16, &[u8]), EntryFault>
    ensures { EntryIs (λ x. (x.0, x.1.now)) result (number_at w16 bytes.now) }
{
    if bytes.len() < 2 {
        return Err(EntryFault::Short);
    }
    let (front, rest) = bytes.split_at(2);
    Ok((u16::from_be_bytes([front[0], front[1]]), rest))
}

fn u32_at(bytes: &[u8]) -> Result<(u32, &[u8]), EntryFault>
    ensures { EntryIs (λ x. (x.0, x.1.now)) result (number_at w32 bytes.now) }
{
    if bytes.len() < 4 {
        return Err(EntryFault::Short);
    }
    let (front, rest) = bytes.split_at(4);
    Ok((
        u32::from_be_bytes([front[0], front[1], front[2], front[3]]),
        rest,
    ))
}

fn split(bytes: &[u8], n: usize) -> Result<(&[u8], &[u8]), EntryFault>
    ensures gives { EntryIs (λ x. (x.0.now, x.1.now)) result (bytes_at n bytes.now) }
    ensures length { IfOk result (λ x. length x.0.now ≡ n) }
{
    if bytes.len() < n {
        return Err(EntryFault::Short);
    }
    Ok(bytes.split_at(n))
}

#[tactic(auto, unfolding(crate::specs::Reading::key_at))]
fn key_of(bytes: &[u8]) -> Result<(&[u8], &[u8]), EntryFault>
    ensures gives { EntryIs (λ x. (x.0.now, x.1.now)) result (key_at bytes.now) }
    ensures sizes { IfOk result (λ x. IsKey x.0.now) }
{
    let (n, rest) = u16_at(bytes)?;
    if n == 0 || n > 264 {
        return Err(EntryFault::Bad);
    }
    split(rest, n as usize)
}

#[tactic(auto, unfolding(crate::specs::Reading::inline_at))]
fn inline_of(bytes: &[u8]) -> Result<(&[u8], &[u8]), EntryFault>
    ensures gives { EntryIs (λ x. (x.0.now, x.1.now)) result (inline_at bytes.now) }
    ensures sizes { IfOk result (λ x. IsInline x.0.now) }
{
    match bytes {
        [] => Err(EntryFault::Short),
        [n, rest @ ..] => {
            if *n > 128 {
                return Err(EntryFault::Bad);
            }
            split(rest, *n as usize)
        }
    }
}

#[tactic(auto, unfolding(crate::specs::Reading::pointer_at))]
fn pointer_of(bytes: &[u8]) -> Result<((u32, u16), &[u8]), EntryFault>
    ensures gives { EntryIs (λ x. (x.0, x.1.now)) result (pointer_at bytes.now) }
    ensures length { IfOk result (λ x. IsPageLength x.0.1) }
{
    let (page, rest) = u32_at(bytes)?;
    let (n, rest) = u16_at(rest)?;
    if n < 129 || n > 4096 {
        return Err(EntryFault::Bad);
    }
    Ok(((page, n), rest))
}

#[tactic(auto, unfolding(crate::specs::Reading::body_at))]
fn body_of<'a>(
    tag: u8,
    key: &'a [u8],
    bytes: &'a [u8],
) -> Result<(BorrowedEntry<'a>, &'a [u8]), EntryFault>
    requires { IsKey key.now }
    ensures gives { EntryIs (λ x. (entry_in x.0, x.1.now)) result (body_at tag key.now bytes.now) }
    ensures fits { IfOk result (λ x. FitsEntry (entry_in x.0)) }
{
    if tag == 1 {
        let (value, rest) = inline_of(bytes)?;
        let body = BorrowedBody::Put(value);
        Ok((BorrowedEntry { key, body }, rest))
    } else if tag == 2 {
        let (pointer, rest) = pointer_of(bytes)?;
        let body = BorrowedBody::At(pointer.0, PageLength::new(pointer.1));
        Ok((BorrowedEntry { key, body }, rest))
    } else {
        let body = BorrowedBody::Gone;
        Ok((BorrowedEntry { key, body }, bytes))
    }
}

/// The entry at the front as it lies there, and the bytes after it. Nothing is copied.
#[tactic(auto, unfolding(crate::specs::Reading::entry_at))]
pub fn borrowed_at(bytes: &[u8]) -> Result<(BorrowedEntry<'_>, &[u8]), EntryFault>
    ensures gives { EntryIs (λ x. (entry_in x.0, x.1.now)) result (entry_at bytes.now) }
    ensures fits { IfOk result (λ x. FitsEntry (entry_in x.0)) }
{
    match bytes {
        [] => Err(EntryFault::Short),
        [tag, rest @ ..] => {
            if *tag == 0 || *tag > 3 {
                return Err(EntryFault::Bad);
            }
            let (key, rest) = key_of(rest)?;
            body_of(*tag, key, rest)
        }
    }
}

/// The same where there is one.
pub fn next_borrowed(bytes: &[u8]) -> (BorrowedEntry<'_>, &[u8])
    requires { is_ok (entry_at bytes.now) ≡ true }
    ensures gives { entry_at bytes.now ≡ Ok (entry_in result.0, result.1.now) }
    ensures fits { FitsEntry (entry_in result.0) }
{
    match borrowed_at(bytes) {
        Ok(read) => read,
        Err(_) => unreachable!(),
    }
}

/// The entry at the front, and the bytes after it.
pub fn entry_of(alloc: Global, bytes: &[u8]) -> Result<(Entry, &[u8]), EntryFault>
    ensures { EntryGives (λ x. (x.0, x.1.now)) result (entry_at bytes.now) }
{
    match borrowed_at(bytes) {
        Ok((borrowed, rest)) => match borrowed.entry(alloc) {
            Ok(entry) => Ok((entry, rest)),
            Err(Memory) => Err(EntryFault::Memory),
        },
        Err(fault) => Err(fault),
    }
}
