// Which transactions are open, and which answers tell that a device is down.
ghost use Rattle.std.specs.Prelude.{◌≡◌, true, Some, slice_get, slice_set};
ghost use Rattle.std.specs.List.{list_any};
ghost use Rattle.kfs_cache.specs.Numbers.{is_marked, is_outside};

use kv_device::{DeviceFault, TxId};

/// Whether a number is marked.
pub fn is_marked(marks: &[bool; 4], tx: TxId) -> bool
    ensures { result ≡ is_marked marks.now tx.0 }
{
    marks.get(tx.0 as usize).copied().unwrap_or(false)
}

/// Marks a number, or takes its mark away. One past the last stays as it is.
pub fn mark(marks: &mut [bool; 4], tx: TxId, is_open: bool)
    ensures { marks.new ≡ slice_set marks.old tx.0 is_open }
{
    let number = tx.0 as usize;
    if number < 4 {
        marks[number] = is_open;
    }
}

/// Whether any is marked.
pub fn has_open(marks: &[bool; 4]) -> bool
    ensures { result ≡ list_any (λ x. x) marks.now }
{
    marks.iter().any(|is_open| *is_open)
}

/// Whether a device that answered so may be down.
pub fn is_outside(fault: &DeviceFault) -> bool
    ensures { result ≡ is_outside fault.now }
{
    matches!(
        fault,
        DeviceFault::Off | DeviceFault::Failed | DeviceFault::Memory
    )
}
