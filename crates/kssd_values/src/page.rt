// The page of a value.
ghost use Rattle.std.specs.Prelude.{◌≡◌, ◌≤◌, ◌<◌, ◌++◌, ◌∷◌, [], length, slice_index, take, drop, true, IfOk, OnOk, ◌+◌};
ghost use Rattle.kv_nand.specs.Flash.{Whole};
ghost use Rattle.kssd_entry.specs.Spelling.{spare_bytes};
ghost use Rattle.kssd_image.specs.ValuePages.{value_head, value_page, is_value_page};
ghost use Rattle.kssd_values.specs.Pages.{key_in, size_in, is_value};

use kssd_entry::PageLength;
use kv_base::{DATA_BYTES, Key, Memory, PageData, SizeFault, Value, be16_at};
use std::alloc::Global;

/// The kind of a value's page in its spare bytes.
const VALUE_KIND: u8 = 4;

/// Where the length of the value stands behind the data.
const LENGTH_PLACE: usize = DATA_BYTES + 10;

/// Where the length of the key stands behind the data.
const KEY_PLACE: usize = DATA_BYTES + 16;

/// The most bytes of a key whose value may have a page.
const MAX_PAGE_KEY: usize = 32;

/// The key and the length that the page of a value names.
#[derive(Debug, Drop)]
pub struct ValueName {
    pub key: Key,
    pub length: PageLength,
}

// The spare bytes up to the key.
fn spare_of(length: u16, key_length: u8) -> [u8; 17]
    ensures { result ≡ spare_bytes value_head length ++ key_length ∷ [] }
{
    let length = length.to_be_bytes();
    [
        VALUE_KIND, 0, 0, 0, 0, 0, 0, 0, 0, 0, length[0], length[1], 0, 0, 0, 0, key_length,
    ]
}

/// The page of a value of 129 bytes or more under a key of at most 32.
pub fn page_of(alloc: Global, key: &Key, value: &Value) -> Result<PageData, Memory>
    requires key { length key.now ≤ 32 }
    ensures page { IfOk result (λ page. page ≡ value_page key.now value.now) }
    ensures kind { IfOk result (λ page. slice_index page 4096 ≤ 4) }
    ensures sizes { OnOk result ((1 ≤ length key.now) × (length value.now ≤ 4096)) }
{
    let mut page = PageData::new(alloc)?;
    page.put(0, value.bytes());
    let spare = spare_of(value.bytes().len() as u16, key.bytes().len() as u8);
    page.put(DATA_BYTES, &spare);
    page.put(DATA_BYTES + spare.len(), key.bytes());
    Ok(page)
}

// So many bytes from a place on.
fn part(bytes: &[u8], place: usize, count: usize) -> &[u8]
    requires { place + count ≤ length bytes.now }
    ensures { result.now ≡ take count (drop place bytes.now) }
{
    &bytes[place..place + count]
}

/// What the page of a value names.
pub fn name_in(alloc: Global, page: &PageData) -> Result<ValueName, Memory>
    requires { is_value (Whole page.now) ≡ true }
    ensures key { IfOk result (λ name. name.key ≡ key_in (Whole page.now)) }
    ensures size { IfOk result (λ name. name.length ≡ size_in (Whole page.now)) }
{
    let bytes = page.bytes();
    let length = PageLength::new(be16_at(bytes, LENGTH_PLACE));
    let key_length = bytes[KEY_PLACE] as usize;
    match Key::new(alloc, part(bytes, KEY_PLACE + 1, key_length)) {
        Ok(key) => Ok(ValueName { key, length }),
        Err(SizeFault::Memory) => Err(Memory),
        Err(SizeFault::BadLength) => unreachable!(),
    }
}

/// The first bytes of a page as a value.
pub fn value_in(alloc: Global, page: &PageData, length: u16) -> Result<Value, Memory>
    requires { length ≤ 4096 }
    ensures { IfOk result (λ value. value ≡ take length page.now) }
{
    match Value::new(alloc, &page.bytes()[..length as usize]) {
        Ok(value) => Ok(value),
        Err(SizeFault::Memory) => Err(Memory),
        Err(SizeFault::BadLength) => unreachable!(),
    }
}

/// Whether a page is that of a value of this length under this key.
#[tactic(auto, unfolding(kssd_image::specs::ValuePages::is_value_page))]
pub fn is_page_of(
    alloc: Global,
    key: &Key,
    length: PageLength,
    page: &PageData,
) -> Result<bool, Memory>
    ensures { IfOk result (λ is. is ≡ is_value_page key.now length page.now) }
{
    if key.bytes().len() > MAX_PAGE_KEY {
        return Ok(false);
    }
    let value = value_in(alloc, page, length.bytes())?;
    let expected = page_of(alloc, key, &value)?;
    Ok(expected.bytes() == page.bytes())
}
