use kssd_recover::{format, recover};
use nand_mem::MemNand;
use std::test::*;

#[test]
fn a_formatted_device_holds_nothing(rt: HostRuntime) -> Result<(), Fail> {
    let alloc = rt.alloc();
    let mut nand = MemNand::fresh(alloc, 256)?;
    format(alloc, &mut nand)?;
    let parts = recover(alloc, &mut nand)?;
    assert_eq!(rt; parts.anchor_page, 0);
    assert_eq!(rt; parts.anchor.number, 1);
    assert_eq!(rt; parts.anchor.runs.len(), 0);
    assert_eq!(rt; parts.log.len(), 0);
    assert!(rt; parts.clean);
    assert_eq!(rt; parts.last_block, 2);
    assert_eq!(rt; parts.next_seq, 1);
    assert_eq!(rt; parts.keys, 0);
    assert_eq!(rt; parts.pages, 0);
    assert_eq!(rt; parts.values.free_blocks(), 90);
    Ok(())
}
