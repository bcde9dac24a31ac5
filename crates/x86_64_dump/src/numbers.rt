//! Numbers in bytes, least byte first.
ghost use Rattle.std.specs.Prelude.{◌≡◌, ◌+◌, ◌≤◌, length};
ghost use Rattle.x86_64_dump.specs.Numbers.{u16_at, u32_at, u64_at};

/// Returns the number in the two bytes from an offset on.
#[tactic(auto, unfolding(crate::specs::Numbers::u16_at))]
pub fn read_u16(bytes: &[u8], offset: usize) -> u16
    requires { offset + 2 ≤ length bytes.now }
    ensures { result ≡ u16_at bytes.now offset }
{
    let bytes = &bytes[offset..];
    u16::from_le_bytes([bytes[0], bytes[1]])
}

/// Returns the number in the four bytes from an offset on.
#[tactic(auto, unfolding(crate::specs::Numbers::u32_at))]
pub fn read_u32(bytes: &[u8], offset: usize) -> u32
    requires { offset + 4 ≤ length bytes.now }
    ensures { result ≡ u32_at bytes.now offset }
{
    let bytes = &bytes[offset..];
    u32::from_le_bytes([bytes[0], bytes[1], bytes[2], bytes[3]])
}

/// Returns the number in the eight bytes from an offset on.
#[tactic(auto, unfolding(crate::specs::Numbers::u64_at))]
pub fn read_u64(bytes: &[u8], offset: usize) -> u64
    requires { offset + 8 ≤ length bytes.now }
    ensures { result ≡ u64_at bytes.now offset }
{
    let bytes = &bytes[offset..];
    u64::from_le_bytes([
        bytes[0], bytes[1], bytes[2], bytes[3], bytes[4], bytes[5], bytes[6], bytes[7],
    ])
}
