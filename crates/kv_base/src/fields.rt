// Numbers in bytes, the high byte first.
ghost use Rattle.std.specs.Prelude.{◌≡◌, ◌+◌, ◌≤◌, length, take, drop};
ghost use Rattle.std.specs.Int.{w16, w32, w64, from_be_bytes};

/// The number in the 2 bytes from a place on.
pub fn be16_at(bytes: &[u8], place: usize) -> u16
    requires { place + 2 ≤ length bytes.now }
    ensures { result ≡ from_be_bytes w16 (take 2 (drop place bytes.now)) }
{
    u16::from_be_bytes([bytes[place], bytes[place + 1]])
}

/// The number in the 4 bytes from a place on.
pub fn be32_at(bytes: &[u8], place: usize) -> u32
    requires { place + 4 ≤ length bytes.now }
    ensures { result ≡ from_be_bytes w32 (take 4 (drop place bytes.now)) }
{
    u32::from_be_bytes([
        bytes[place],
        bytes[place + 1],
        bytes[place + 2],
        bytes[place + 3],
    ])
}

/// The number in the 8 bytes from a place on.
pub fn be64_at(bytes: &[u8], place: usize) -> u64
    requires { place + 8 ≤ length bytes.now }
    ensures { result ≡ from_be_bytes w64 (take 8 (drop place bytes.now)) }
{
    u64::from_be_bytes([
        bytes[place],
        bytes[place + 1],
        bytes[place + 2],
        bytes[place + 3],
        bytes[place + 4],
        bytes[place + 5],
        bytes[place + 6],
        bytes[place + 7],
    ])
}
