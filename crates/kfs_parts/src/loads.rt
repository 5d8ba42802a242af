// Loads. The expected values are those of another program, written from the generator's rules.
use kfs_load::make_script;
use kfs_model::Line;
use kfs_path::{Call, Data};
use std::alloc::Global;

fn load(alloc: Global, seed: u64, count: u32, blocks: u16) -> Option<Vec<Line>> {
    if count < 1 || count > 20_000 || blocks < 256 || blocks > 2048 {
        return None;
    }
    make_script(alloc, seed, count, blocks).ok()
}

#[test]
fn a_load_has_so_many_lines(rt: HostRuntime) {
    let cases = [
        (0, 1, 256, 14),
        (7, 10, 256, 39),
        (7, 2_000, 256, 4_461),
        (1, 20_000, 2_048, 43_919),
        (u64::MAX, 3, 300, 20),
    ];
    for (seed, count, blocks, length) in cases {
        let lines = load(rt.alloc(), seed, count, blocks);
        assert!(&rt; lines.is_some_and(|lines| lines.len() == length));
    }
}

fn is_rename(line: &Line, from: &[u8], to: &[u8]) -> bool {
    match line {
        Line::Call(Call::Rename { old, new }) => old.bytes() == from && new.bytes() == to,
        _ => false,
    }
}

fn is_truncate(line: &Line, name: &[u8], size: i64) -> bool {
    match line {
        Line::Call(Call::Truncate { path, length }) => path.bytes() == name && *length == size,
        _ => false,
    }
}

fn is_open(line: &Line, name: &[u8]) -> bool {
    match line {
        Line::Call(Call::Open { path, flags }) => {
            path.bytes() == name
                && flags.read
                && flags.write
                && flags.creat
                && !flags.excl
                && !flags.append
        }
        _ => false,
    }
}

fn is_write(line: &Line, size: u32, value: u8, place: i64) -> bool {
    match line {
        Line::Call(
            Call::Pwrite {
                fd: 0,
                bytes: Data::Fill { count, byte },
                offset,
            },
        ) => *count == size && *byte == value && *offset == place,
        _ => false,
    }
}

#[test]
fn the_first_steps_are_those_of_the_seed(rt: HostRuntime) {
    let alloc = rt.alloc();
    let lines = load(alloc, 0, 1, 256);
    assert!(&rt;
        lines.is_some_and(|lines| lines
            .get(11)
            .is_some_and(|line| is_rename(line, b"/d4/f17", b"/d6/f5")))
    );
    let lines = load(alloc, 7, 10, 256);
    assert!(&rt;
        lines.is_some_and(|lines| match lines.as_slice() {
            [_, _, _, _, _, _, _, _, _, _, _, cut, open, write, ..] => {
                is_truncate(cut, b"/d1/f13", 18_673)
                    && is_open(open, b"/d9/f4")
                    && is_write(write, 15_765, 0x76, 71_739)
            }
            _ => false,
        })
    );
}
