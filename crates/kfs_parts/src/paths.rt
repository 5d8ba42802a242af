// Paths as they are written.
use kfs_path::{Path, TreeItem, TreeList};
use kv_base::{Names, Text};
use std::alloc::Global;

// The pieces of a path, each with a bar behind it, and whether it ends in a slash.
fn pieces(alloc: Global, bytes: &[u8]) -> Option<(Text, bool)> {
    let path = Path::read(alloc, bytes).ok()?;
    let mut text = Text::new(alloc, b"").ok()?;
    for piece in path.pieces.items() {
        text.append(piece.bytes()).ok()?;
        text.push(b'|').ok()?;
    }
    Some((text, path.trailing))
}

fn is_cut(alloc: Global, bytes: &[u8], wanted: &[u8], trailing: bool) -> bool {
    pieces(alloc, bytes).is_some_and(|(text, slash)| text.bytes() == wanted && slash == trailing)
}

#[test]
fn a_path_is_cut_at_slashes(rt: HostRuntime) {
    let alloc = rt.alloc();
    let rows: [(&[u8], &[u8], bool); 6] = [
        (b"/a/b", b"a|b|", false),
        (b"a//./b/", b"a|.|b|", true),
        (b"..", b"..|", false),
        (b"///", b"", true),
        (b"/a\0/c", b"a\0|c|", false),
        (b"/a\0/..", b"a\0|..|", false),
    ];
    for (bytes, wanted, trailing) in rows {
        assert!(&rt; is_cut(alloc, bytes, wanted, trailing), "{bytes:?}");
    }
}

// How many items a list of nodes has after one is added.
fn added(alloc: Global) -> Option<usize> {
    let mut list = TreeList::new(alloc);
    let path = Names::new(alloc);
    let item = TreeItem {
        path,
        file: true,
        length: 7,
    };
    list.push(item).ok()?;
    Some(list.items().len())
}

#[test]
fn a_list_of_nodes_keeps_what_is_pushed(rt: HostRuntime) {
    assert_eq!(&rt; added(rt.alloc()), Some(1));
}
