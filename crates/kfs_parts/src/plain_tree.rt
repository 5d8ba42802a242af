// The plain tree on a small device, and calls that no script spells.
ghost use Rattle.std.specs.Prelude.{◌≤◌, ◌+◌, length};

use kfs_path::{Call, Data, Errno, Reply};
use kfs_plain::{PlainTree, Totals};
use kfs_script::{Answer, Line, read_script, write_answer};
use kv_base::{Memory, Text};
use std::alloc::Global;
use std::test::Fail;

// A plain tree, and how many calls it did.
#[derive(Drop)]
struct Tree {
    tree: PlainTree,
    calls: u32,
    ghost few: { tree.world.tree.next ≤ 2 + calls },
}

impl Tree {
    fn new(alloc: Global, keys: u64, pages: u64) -> Result<Tree, Memory>
        requires { keys ≤ 68544 }
    {
        let tree = PlainTree::new(alloc, keys, pages)?;
        Ok(Tree { tree, calls: 0 })
    }

    fn step(&mut self, alloc: Global, call: &Call) -> Result<Reply, Memory> {
        if self.calls == u32::MAX {
            return Err(Memory);
        }
        self.calls += 1;
        self.tree.step(alloc, call)
    }
}

// The text of what a tree answers to the calls of a script.
fn answers(alloc: Global, tree: &mut Tree, script: &[u8]) -> Result<Text, Memory>
    requires { length script.now ≤ 16777216 }
{
    let mut text = Text::new(alloc, b"")?;
    let Ok(script) = read_script(alloc, script) else {
        return Ok(text);
    };
    for line in script.lines() {
        if let Line::Call(call) = line {
            let reply = tree.step(alloc, call)?;
            write_answer(alloc, &mut text, &Answer::Reply(reply))?;
        }
    }
    Ok(text)
}

// Calls on a device of five keys, where there is room for one file without bytes.
const FIVE_KEYS: &[u8] =
    b"open /f rw+creat\nopen /g w+creat\nmkdir /f\nmkdir /g\npwrite 0 t:a 0\npwrite 0 t:a 1048576\nftruncate 0 1\nftruncate 0 1048577\n@room\n";

// What they answer.
const WITH_FIVE_KEYS: &[u8] =
    b"ok 0\nerr ENOSPC\nerr EEXIST\nerr ENOSPC\nerr ENOSPC\nerr EFBIG\nerr ENOSPC\nerr EFBIG\nroom 5 5 0 0\n";

#[test]
fn room_is_judged_last(rt: HostRuntime) -> Result<(), Fail> {
    let mut tree = Tree::new(rt.alloc(), 5, 0)?;
    let text = answers(rt.alloc(), &mut tree, FIVE_KEYS)?;
    assert_eq!(&rt; text.bytes(), WITH_FIVE_KEYS);
    Ok(())
}

// The same device with all descriptors open.
fn with_all_open(alloc: Global) -> Result<Tree, Memory> {
    let mut tree = Tree::new(alloc, 5, 0)?;
    for _ in 0..64 {
        let _ = answers(alloc, &mut tree, b"open /f rw+creat\n")?;
    }
    Ok(tree)
}

#[test]
fn a_descriptor_is_asked_for_before_room(rt: HostRuntime) -> Result<(), Fail> {
    let mut tree = with_all_open(rt.alloc())?;
    let script = b"open /g w+creat\nopen /f r+creat+excl\nclose 3\nopen /g w+creat\n";
    let text = answers(rt.alloc(), &mut tree, script)?;
    assert_eq!(&rt;
        text.bytes(),
        b"err EMFILE\nerr EEXIST\nok\nerr ENOSPC\n".as_slice()
    );
    Ok(())
}

// A file at descriptor 0 with its offset at the greatest length, a directory at 1, and the file
// again at 2, to be read alone.
const OPENED: &[u8] = b"open /f rw+creat\nmkdir /a\nopen /a r\nopen /f r\nlseek 0 set 1048576\n";

// More bytes than one call carries.
const TOO_MANY: u32 = 1_048_577;

fn refusal(alloc: Global, call: &Call) -> Result<Option<Errno>, Memory> {
    let mut tree = Tree::new(alloc, 4032, 1472)?;
    let _ = answers(alloc, &mut tree, OPENED)?;
    match tree.step(alloc, call)? {
        Reply::Err(errno) => Ok(Some(errno)),
        _ => Ok(None),
    }
}

#[test]
fn a_read_of_too_many_bytes_is_refused_last(rt: HostRuntime) -> Result<(), Fail> {
    let count = TOO_MANY;
    for (fd, errno) in [(0, Errno::EINVAL), (1, Errno::EISDIR), (3, Errno::EBADF)] {
        let read = refusal(rt.alloc(), &Call::Read { fd, count })?;
        assert!(&rt; read == Some(errno), "at {fd}");
        let offset = 0;
        let read = refusal(rt.alloc(), &Call::Pread { fd, count, offset })?;
        assert!(&rt; read == Some(errno), "at {fd}");
    }
    Ok(())
}

#[test]
fn a_write_of_too_many_bytes_is_refused_last(rt: HostRuntime) -> Result<(), Fail> {
    for (fd, errno) in [(0, Errno::EINVAL), (2, Errno::EBADF)] {
        let bytes = Data::Fill {
            count: TOO_MANY,
            byte: b'A',
        };
        let written = refusal(rt.alloc(), &Call::Write { fd, bytes })?;
        assert!(&rt; written == Some(errno), "at {fd}");
    }
    Ok(())
}

#[test]
fn totals_are_of_the_whole_tree(rt: HostRuntime) -> Result<(), Fail> {
    let mut tree = Tree::new(rt.alloc(), 4032, 1472)?;
    let script = b"open /f rw+creat\nwrite 0 t:abc\npwrite 0 t:Z 10000\n";
    let _ = answers(rt.alloc(), &mut tree, script)?;
    let wanted = Totals {
        nodes: 2,
        chunks: 3,
        bytes: 10001,
    };
    assert_eq!(&rt; tree.tree.totals(), wanted);
    Ok(())
}
