ghost use Rattle.std.specs.Prelude.{◌≡◌, ◌≢◌, ◌<◌, ◌≤◌, ◌/◌, ◌*◌, true, false, length, IfSome};
ghost use Rattle.kssd_image.specs.ValuePages.{has_value};
ghost use Rattle.kssd_values.specs.Places.{IsValueBlock};
ghost use Rattle.kssd_values.specs.Blocks.{device_of, copied};
ghost use Rattle.kssd_values.specs.Pages.{StandsIn, key_in};
ghost use Rattle.nand_mem.specs.MemNand.{mem};

use kssd_layout::Layout;
use kssd_values::{Mark, PageList, Values};
use kv_base::{Key, Value};
use kv_nand::Nand;
use nand_mem::MemNand;
use std::alloc::Global;
use std::test::*;

/// A flash of 256 blocks without values.
pub fn fresh(alloc: Global) -> Option<(MemNand, Values)>
    ensures stands { IfSome result (λ p. StandsIn p.1 (mem p.0).flash) }
    ensures copied { IfSome result (λ p. copied p.1 ≡ 0) }
{
    let layout = Layout::of(256)?;
    let nand = MemNand::fresh(alloc, 256).ok()?;
    let visible = PageList::new(alloc);
    let values = Values::open(alloc, &layout, &visible).ok()?;
    Some((nand, values))
}

fn value_of(alloc: Global, number: u8) -> Option<Value>
    ensures { IfSome result (λ value. length value ≡ 200) }
{
    match Value::new(alloc, &[number; 200]) {
        Ok(value) => Some(value),
        Err(_) => None,
    }
}

/// Puts a value of 200 bytes of this number under its key, and marks its page visible.
pub fn put_visible<N: Nand>(
    alloc: Global,
    nand: &mut N,
    values: &mut Values,
    number: u8,
) -> Option<u32>
    requires { StandsIn values.old (N.flash nand.old) }
    ensures stands { IfSome result (λ page. StandsIn values.new (N.flash nand.new)) }
    ensures value { IfSome result (λ page. IsValueBlock (device_of values.new) (page / 32)) }
    ensures held { IfSome result (λ page. has_value (key_in ((N.flash nand.new).image page)) 200 ((N.flash nand.new).image page) ≡ true) }
    ensures copied { IfSome result (λ page. copied values.new ≡ copied values.old) }
    ensures device { IfSome result (λ page. device_of values.new ≡ device_of values.old) }
{
    let key = Key::new(alloc, &[number]).ok()?;
    let value = value_of(alloc, number)?;
    if values.free_pages() == 0 {
        return None;
    }
    match values.put(alloc, nand, &key, &value) {
        Ok(page) => {
            values.mark(page, Mark::Visible);
            Some(page)
        }
        Err(_) => None,
    }
}

// Puts 33 values, of which the first is dead then: its page. Its block is closed.
pub fn filled<N: Nand>(alloc: Global, nand: &mut N, values: &mut Values) -> Option<u32>
    requires { StandsIn values.old (N.flash nand.old) }
    ensures stands { IfSome result (λ page. StandsIn values.new (N.flash nand.new)) }
    ensures copied { IfSome result (λ page. copied values.new ≡ copied values.old) }
{
    let first = put_visible(alloc, nand, values, 0)?;
    for number in 1..33 {
        put_visible(alloc, nand, values, number)?;
    }
    values.mark(first, Mark::Dead);
    Some(first)
}

// Of a flash with one value: the free blocks and pages before and after, the open block's pages
// left, and the value.
type One = (u16, u32, u16, u32, u32, Value);

fn one_value(alloc: Global) -> Option<One> {
    let (mut nand, mut values) = fresh(alloc)?;
    let blocks = values.free_blocks();
    let pages = values.free_pages();
    let page = put_visible(alloc, &mut nand, &mut values, 7)?;
    let value = values.get(alloc, &mut nand, page, 200).ok()?;
    Some((
        blocks,
        pages,
        values.free_blocks(),
        values.free_pages(),
        values.open_pages(),
        value,
    ))
}

#[test]
fn a_value_is_put_and_got(rt: HostRuntime) {
    match one_value(rt.alloc()) {
        Some((blocks, pages, left, rest, open, value)) => {
            assert_eq!(rt; (blocks, pages), (90, 2848));
            assert_eq!(rt; (left, rest, open), (89, 2847, 31));
            assert!(rt; value.bytes() == [7; 200].as_slice());
        }
        None => assert!(rt; false),
    }
}

// Whether the block of a dead page is the victim, and how many pages its successor has left.
fn victim(alloc: Global) -> Option<(bool, u32)> {
    let (mut nand, mut values) = fresh(alloc)?;
    if values.victim().is_some() {
        return None;
    }
    let first = filled(alloc, &mut nand, &mut values)?;
    Some((values.victim()? as u32 == first / 32, values.open_pages()))
}

#[test]
fn a_closed_block_with_a_dead_page_is_the_victim(rt: HostRuntime) {
    assert_eq!(rt; victim(rt.alloc()), Some((true, 31)));
}
