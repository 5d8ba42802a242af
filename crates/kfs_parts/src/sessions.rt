// Sessions on a small device, and calls that no script spells.
ghost use Rattle.std.specs.Prelude.{◌≤◌, ◌+◌, ◌^◌, IfSome};
ghost use Rattle.kfs_tx.specs.Tx.{age_of};
ghost use Rattle.kfs_posix.specs.Volume.{running_in};

use kfs_core::format;
use kfs_path::{Cause, Errno, Flags, Reply};
use kfs_posix::Session;
use kv_device::MapDevice;
use std::alloc::Global;
use std::test::Fail;

// A session on a new file system.
fn mounted(alloc: Global, keys: u32, pages: u32) -> Option<Session<MapDevice>>
    requires least { 3 ≤ keys }
    requires most { keys ≤ 68544 }
    ensures { IfSome result (λ session. age_of (running_in session) ≤ 2 ^ 62) }
{
    let mut device = MapDevice::new(alloc, keys, pages).ok()?;
    format(alloc, &mut device).ok()?;
    Session::mount(alloc, device).ok()
}

const MADE: Flags = Flags {
    read: true,
    write: true,
    creat: true,
    excl: false,
    trunc: false,
    append: false,
};

// The same with a file at descriptor 0.
fn with_file(alloc: Global, keys: u32, pages: u32) -> Option<Session<MapDevice>>
    requires least { 3 ≤ keys }
    requires most { keys ≤ 68544 }
    ensures { IfSome result (λ session. age_of (running_in session) ≤ 2 ^ 62 + 2 ^ 40) }
{
    let mut session = mounted(alloc, keys, pages)?;
    match session.open(alloc, b"/f", MADE) {
        Reply::Number(0) => Some(session),
        _ => None,
    }
}

#[test]
fn room_is_judged_last(rt: HostRuntime) {
    let alloc = rt.alloc();
    let Some(mut session) = with_file(alloc, 5, 0) else {
        panic!(&rt; "no file");
    };
    assert!(&rt; matches!(session.mkdir(alloc, b"/f"), Reply::Err(Errno::EEXIST)));
    assert!(&rt; matches!(session.mkdir(alloc, b"/g"), Reply::Err(Errno::ENOSPC)));
    assert!(&rt; matches!(session.open(alloc, b"/g", MADE), Reply::Err(Errno::ENOSPC)));
    assert!(&rt; matches!(session.pwrite(alloc, 0, b"a", 0), Reply::Err(Errno::ENOSPC)));
    assert!(&rt;
        matches!(
            session.pwrite(alloc, 0, b"a", 1_048_576),
            Reply::Err(Errno::EFBIG)
        )
    );
    assert!(&rt; matches!(session.ftruncate(alloc, 0, 1), Reply::Err(Errno::ENOSPC)));
}

#[test]
fn a_call_carries_at_most_so_many_bytes(rt: HostRuntime) -> Result<(), Fail> {
    let alloc = rt.alloc();
    let Some(mut session) = with_file(alloc, 100, 10) else {
        panic!(&rt; "no file");
    };
    let long = vec![in alloc; b'A'; 1_048_577]?;
    assert!(&rt; matches!(session.read(alloc, 0, 1_048_577), Reply::Err(Errno::EINVAL)));
    assert!(&rt; matches!(session.read(alloc, 1, 1_048_577), Reply::Err(Errno::EBADF)));
    assert!(&rt;
        matches!(
            session.write(alloc, 0, long.as_slice()),
            Reply::Err(Errno::EINVAL)
        )
    );
    assert!(&rt;
        matches!(
            session.pread(alloc, 0, 1_048_577, 0),
            Reply::Err(Errno::EINVAL)
        )
    );
    Ok(())
}

#[test]
fn the_cause_is_kept_while_a_session_is_down(rt: HostRuntime) {
    let alloc = rt.alloc();
    let Some(mut session) = with_file(alloc, 100, 10) else {
        panic!(&rt; "no file");
    };
    assert!(&rt; session.is_down().is_none());
    session.plan_cut(1, 0);
    assert!(&rt; matches!(session.sync(alloc), Reply::Down(Cause::Cut)));
    assert!(&rt; matches!(session.sync(alloc), Reply::Off));
    assert!(&rt; matches!(session.is_down(), Some(Cause::Cut)));
    assert_eq!(&rt; session.changes(), 1);
}
