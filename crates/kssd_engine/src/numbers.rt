// By how much calls may raise the numbers on the flash.
ghost use Rattle.std.specs.Prelude.{◌≡◌, ◌^◌};
ghost use Rattle.kssd_store.specs.Setting.{set_rise};

use kv_base::Value;

/// By how much an end may raise them.
pub const END_RISE: u64 = 1 << 10;

/// By how much the work between calls may raise them.
pub const WORK_RISE: u64 = 1 << 12;

/// By how much setting a value in a page may raise them.
const PAGE_RISE: u64 = 1 << 11;

/// By how much setting a value may raise them: one of at most 128 bytes writes nothing.
pub fn set_rise(value: &Value) -> u64
    ensures { result ≡ set_rise value.now }
{
    if value.is_large() { PAGE_RISE } else { 0 }
}
