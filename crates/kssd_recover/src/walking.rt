// The visible entries, one by one.
ghost use Rattle.std.specs.Prelude.{◌≡◌, ◌++◌, ◌∷◌, [], List, ℕ, IfOk, OnOk, IfErr};
ghost use Rattle.kv_nand.specs.Flash.{Image};
ghost use Rattle.kssd_entry.specs.declared.entry.Entry as entries;
ghost use Rattle.kssd_image.specs.Whole.{has_its_value};
ghost use Rattle.kssd_model.specs.OnlyReading.{OnlyReads, StopsReading};
ghost use Rattle.kssd_recover.specs.Walk.{IsSeen, key_count, least_of};

use crate::value::has_its_value;
use kssd_entry::Entry;
use kssd_layout::Layout;
use kssd_merge::Ordered;
use kssd_values::PageList;
use kv_base::Memory;
use kv_nand::{FlashFault, Nand};
use std::alloc::Global;

/// What visible entries name.
#[derive(Debug, Drop)]
pub struct Visible {
    /// The pages of their values.
    pub places: PageList,
    /// How many keys there are, 2^32 - 1 where there are more.
    pub keys: u32,
    /// The least of these pages that isn't the value of the entry that names it.
    pub bad: Option<u32>,
}

// The least of a page and those before it.
fn least(before: Option<u32>, page: u32) -> u32
    ensures { result ≡ least_of before page }
{
    match before {
        Some(least) if least < page => least,
        _ => page,
    }
}

impl Visible {
    /// No entries.
    pub fn new(alloc: Global) -> Visible
        ensures { (blocks : ℕ) (image : Image) → IsSeen blocks image [] result }
    {
        Visible {
            places: PageList::new(alloc),
            keys: 0,
            bad: None,
        }
    }

    /// Adds one more entry, which names the page of its value or not, unless it is a deletion mark.
    pub fn add(&mut self, entry: &Entry, has_value: bool) -> Result<(), Memory>
        ensures { OnOk result ((blocks : ℕ) (image : Image) (before : List entries.Entry) → has_value ≡ has_its_value blocks image entry.now → IsSeen blocks image before self.old → IsSeen blocks image (before ++ entry.now ∷ []) self.new) }
    {
        match entry {
            Entry::Put { .. } => self.keys = self.keys.saturating_add(1),
            Entry::At { page, .. } => {
                self.places.push(*page)?;
                self.keys = self.keys.saturating_add(1);
                if !has_value {
                    self.bad = Some(least(self.bad, *page));
                }
            }
            Entry::Gone { .. } => {}
        }
        Ok(())
    }

    /// Adds one more entry, whose value it judges.
    pub fn see<N: Nand>(
        &mut self,
        alloc: Global,
        nand: &mut N,
        layout: &Layout,
        entry: &Entry,
    ) -> Result<(), FlashFault>
        requires { layout.now.blocks ≡ (N.flash nand.old).blocks }
        ensures ok { OnOk result ((before : List entries.Entry) → IsSeen (N.flash nand.old).blocks (N.flash nand.old).image before self.old → IsSeen (N.flash nand.old).blocks (N.flash nand.old).image (before ++ entry.now ∷ []) self.new) }
        ensures reads { OnOk result (OnlyReads (N.flash nand.old) (N.flash nand.new)) }
        ensures err { IfErr result (λ fault. StopsReading (N.flash nand.old) fault (N.flash nand.new)) }
    {
        let has_value = has_its_value(alloc, nand, layout, entry)?;
        self.add(entry, has_value)?;
        Ok(())
    }
}

/// Sees all entries of a source. Each page that it has yet to read is read once, and so is each page
/// of a value.
pub fn walk<N: Nand, S: Ordered + Drop>(
    alloc: Global,
    nand: &mut N,
    layout: &Layout,
    source: S,
) -> Result<Visible, FlashFault>
    requires device { layout.now.blocks ≡ (N.flash nand.old).blocks }
    requires stands { S.stands source (N.flash nand.old).blocks (N.flash nand.old).image }
    ensures ok { IfOk result (IsSeen (N.flash nand.old).blocks (N.flash nand.old).image (S.rest source (N.flash nand.old).image)) }
    ensures reads { OnOk result (OnlyReads (N.flash nand.old) (N.flash nand.new)) }
    ensures err { IfErr result (λ fault. StopsReading (N.flash nand.old) fault (N.flash nand.new)) }
{
    let mut source = source;
    let mut visible = Visible::new(alloc);
    'entries: loop {
        match source.peek() {
            None => return Ok(visible),
            Some(entry) => visible.see(alloc, nand, layout, entry)?,
        }
        source.advance(alloc, nand)?;
    }
}

// One more, unless the entry is a deletion mark.
fn with_key(count: u32, entry: &Entry) -> u32
    ensures { (before : List entries.Entry) → count ≡ key_count before → result ≡ key_count (before ++ entry.now ∷ []) }
{
    match entry {
        Entry::Gone { .. } => count,
        _ => count.saturating_add(1),
    }
}

/// Counts the entries of a source, deletion marks apart. Each page that it has yet to read is read
/// once.
pub fn count_keys<N: Nand, S: Ordered + Drop>(
    alloc: Global,
    nand: &mut N,
    source: S,
) -> Result<u32, FlashFault>
    requires { S.stands source (N.flash nand.old).blocks (N.flash nand.old).image }
    ensures ok { IfOk result (λ count. count ≡ key_count (S.rest source (N.flash nand.old).image)) }
    ensures reads { OnOk result (OnlyReads (N.flash nand.old) (N.flash nand.new)) }
    ensures err { IfErr result (λ fault. StopsReading (N.flash nand.old) fault (N.flash nand.new)) }
{
    let mut source = source;
    let mut count = 0;
    'entries: loop {
        match source.peek() {
            None => return Ok(count),
            Some(entry) => count = with_key(count, entry),
        }
        source.advance(alloc, nand)?;
    }
}
