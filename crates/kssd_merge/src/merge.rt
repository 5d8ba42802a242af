ghost use Rattle.std.specs.Prelude.{◌≡◌, ◌≢◌, ◌∷◌, [], ℕ, IfOk, OnOk, IfErr};
ghost use Rattle.kv_nand.specs.Flash.{Image};
ghost use Rattle.kssd_merge.specs.Merge.{IsNext, counting, is_dropped_mark};
ghost use Rattle.kssd_merge.specs.Sides.{side_in};
ghost use Rattle.kssd_model.specs.OnlyReading.{OnlyReads, StopsReading};
ghost use Rattle.kssd_model.specs.Rising.{merged};

use crate::Ordered;
use kssd_entry::Entry;
use kv_nand::{FlashFault, Nand};
use std::alloc::Global;
use std::cmp::Ordering;

/// The next key's newest entry, which is then passed on both sides. With `drop_gone` deletion marks
/// are passed over. There is none exactly where both are at their end and, with `drop_gone`, no
/// entry but deletion marks was left.
pub fn merge_next<N: Nand, A: Ordered, B: Ordered>(
    alloc: Global,
    nand: &mut N,
    newer: &mut A,
    older: &mut B,
    drop_gone: bool,
) -> Result<Option<Entry>, FlashFault>
    requires newer_stands { A.stands newer.old (N.flash nand.old).blocks (N.flash nand.old).image }
    requires older_stands { B.stands older.old (N.flash nand.old).blocks (N.flash nand.old).image }
    ensures next { IfOk result (λ next. IsNext (counting drop_gone (merged (A.rest newer.old (N.flash nand.old).image) (B.rest older.old (N.flash nand.old).image))) next (merged (A.rest newer.new (N.flash nand.old).image) (B.rest older.new (N.flash nand.old).image))) }
    ensures newer_stands { OnOk result (A.stands newer.new (N.flash nand.old).blocks (N.flash nand.old).image) }
    ensures older_stands { OnOk result (B.stands older.new (N.flash nand.old).blocks (N.flash nand.old).image) }
    ensures newer_housed { OnOk result (A.houses newer.new ≡ A.houses newer.old) }
    ensures older_housed { OnOk result (B.houses older.new ≡ B.houses older.old) }
    ensures reads { OnOk result (OnlyReads (N.flash nand.old) (N.flash nand.new)) }
    ensures err { IfErr result (λ fault. StopsReading (N.flash nand.old) fault (N.flash nand.new)) }
{
    'marks: loop {
        let next = next_of(alloc, nand, newer, older)?;
        if !is_dropped(drop_gone, &next) {
            return Ok(next);
        }
    }
}

// Whether the next entry is a deletion mark, and these are dropped.
fn is_dropped(drop_gone: bool, next: &Option<Entry>) -> bool
    ensures { result ≡ is_dropped_mark drop_gone next.now }
{
    match next {
        Some(Entry::Gone { .. }) => drop_gone,
        _ => false,
    }
}

// Where the next key stands.
#[derive(Clone, Copy)]
enum Side {
    Neither,
    Newer,
    Older,
    Both,
}

fn side_of<A: Ordered, B: Ordered>(newer: &A, older: &B) -> Side
    ensures { (device : ℕ) (image : Image) → A.stands newer.now device image → B.stands older.now device image → result ≡ side_in (A.rest newer.now image) (B.rest older.now image) }
{
    match newer.peek() {
        None => match older.peek() {
            None => Side::Neither,
            Some(_) => Side::Older,
        },
        Some(new) => match older.peek() {
            None => Side::Newer,
            Some(old) => match new.key().cmp(old.key()) {
                Ordering::Less => Side::Newer,
                Ordering::Equal => Side::Both,
                Ordering::Greater => Side::Older,
            },
        },
    }
}

// The next entry of one side, which is passed.
fn taken<N: Nand, S: Ordered>(
    alloc: Global,
    nand: &mut N,
    source: &mut S,
) -> Result<Entry, FlashFault>
    requires some { S.rest source.old (N.flash nand.old).image ≢ [] }
    requires stands { S.stands source.old (N.flash nand.old).blocks (N.flash nand.old).image }
    ensures ok { IfOk result (λ entry. S.rest source.old (N.flash nand.old).image ≡ entry ∷ S.rest source.new (N.flash nand.old).image) }
    ensures still { OnOk result (S.stands source.new (N.flash nand.old).blocks (N.flash nand.old).image) }
    ensures housed { OnOk result (S.houses source.new ≡ S.houses source.old) }
    ensures reads { OnOk result (OnlyReads (N.flash nand.old) (N.flash nand.new)) }
    ensures err { IfErr result (λ fault. StopsReading (N.flash nand.old) fault (N.flash nand.new)) }
{
    let entry = match source.peek() {
        Some(entry) => entry.copy(alloc)?,
        None => unreachable!(),
    };
    source.advance(alloc, nand)?;
    Ok(entry)
}

// The next key's newest entry, a deletion mark or not.
fn next_of<N: Nand, A: Ordered, B: Ordered>(
    alloc: Global,
    nand: &mut N,
    newer: &mut A,
    older: &mut B,
) -> Result<Option<Entry>, FlashFault>
    requires newer_stands { A.stands newer.old (N.flash nand.old).blocks (N.flash nand.old).image }
    requires older_stands { B.stands older.old (N.flash nand.old).blocks (N.flash nand.old).image }
    ensures next { IfOk result (λ next. IsNext (merged (A.rest newer.old (N.flash nand.old).image) (B.rest older.old (N.flash nand.old).image)) next (merged (A.rest newer.new (N.flash nand.old).image) (B.rest older.new (N.flash nand.old).image))) }
    ensures newer_stands { OnOk result (A.stands newer.new (N.flash nand.old).blocks (N.flash nand.old).image) }
    ensures older_stands { OnOk result (B.stands older.new (N.flash nand.old).blocks (N.flash nand.old).image) }
    ensures newer_housed { OnOk result (A.houses newer.new ≡ A.houses newer.old) }
    ensures older_housed { OnOk result (B.houses older.new ≡ B.houses older.old) }
    ensures reads { OnOk result (OnlyReads (N.flash nand.old) (N.flash nand.new)) }
    ensures err { IfErr result (λ fault. StopsReading (N.flash nand.old) fault (N.flash nand.new)) }
{
    match side_of(newer, older) {
        Side::Neither => Ok(None),
        Side::Newer => Ok(Some(taken(alloc, nand, newer)?)),
        Side::Older => Ok(Some(taken(alloc, nand, older)?)),
        Side::Both => {
            older.advance(alloc, nand)?;
            Ok(Some(taken(alloc, nand, newer)?))
        }
    }
}
