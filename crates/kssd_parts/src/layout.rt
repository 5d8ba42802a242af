use kssd_layout::{Layout, Region};
use std::test::*;

fn numbers(blocks: u16) -> Option<(u16, u16, u32, u32)> {
    let layout = Layout::of(blocks)?;
    Some((
        layout.base_blocks,
        layout.value_blocks,
        layout.max_keys,
        layout.max_pages,
    ))
}

#[test]
fn the_least_and_the_greatest_device(rt: HostRuntime) {
    assert_eq!(rt; numbers(255), None);
    assert_eq!(rt; numbers(256), Some((14, 90, 4032, 1472)));
    assert_eq!(rt; numbers(2048), Some((238, 1434, 68544, 44480)));
    assert_eq!(rt; numbers(2049), None);
}

fn region(block: u16) -> Option<Region> {
    let layout = Layout::of(256)?;
    if block < layout.blocks {
        Some(layout.region_of(block))
    } else {
        None
    }
}

#[test]
fn the_first_and_the_last_block_of_each_region(rt: HostRuntime) {
    for (first, last, wanted) in [
        (0, 1, Region::Anchor),
        (2, 19, Region::Log),
        (20, 165, Region::Run),
        (166, 255, Region::Value),
    ] {
        assert_eq!(rt; region(first), Some(wanted), "at {first}");
        assert_eq!(rt; region(last), Some(wanted), "at {last}");
    }
}
