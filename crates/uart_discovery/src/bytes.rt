//! Numbers in tables.
ghost use Rattle.std.specs.Prelude.{◌≡◌, ◌+◌, ◌<◌, ◌≤◌, ◌^◌, length};
ghost use Rattle.uart_discovery.specs.Bytes.{le16, le32, le64, checksum};

// Returns the number in two bytes, the lowest first.
pub(crate) fn le16(bytes: &[u8], at: usize) -> u16
    requires { at + 2 ≤ length bytes.now }
    ensures { result ≡ le16 bytes.now at }
{
    u16::from_le_bytes([bytes[at], bytes[at + 1]])
}

// Returns the number in four bytes, the lowest first.
pub(crate) fn le32(bytes: &[u8], at: usize) -> u32
    requires { at + 4 ≤ length bytes.now }
    ensures { result ≡ le32 bytes.now at }
{
    u32::from_le_bytes([bytes[at], bytes[at + 1], bytes[at + 2], bytes[at + 3]])
}

// Returns the number in eight bytes, the lowest first.
pub(crate) fn le64(bytes: &[u8], at: usize) -> u64
    requires { at + 8 ≤ length bytes.now }
    ensures { result ≡ le64 bytes.now at }
{
    u64::from_le_bytes([
        bytes[at],
        bytes[at + 1],
        bytes[at + 2],
        bytes[at + 3],
        bytes[at + 4],
        bytes[at + 5],
        bytes[at + 6],
        bytes[at + 7],
    ])
}

// Returns the sum of the bytes, of which the lowest eight bits are kept.
pub(crate) fn checksum(bytes: &[u8]) -> u8
    ensures { result ≡ checksum bytes.now }
{
    bytes.iter().fold(0u8, |sum, byte| sum.wrapping_add(*byte))
}
