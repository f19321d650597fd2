// Numbers as bytes, little-endian. Each size has a reader and a writer of its own: a trait over both
// would be longer than their bodies.
ghost use Rattle.std.specs.Prelude.{◌≡◌, ◌++◌, ◌+◌, ◌≤◌, length, take, drop};
ghost use Rattle.block.specs.Bytes.{le16, le32, bytes16, bytes32};

// The 16-bit number at `at`.
pub fn read16(s: &[u8], at: usize) -> u32
    requires { at + 2 ≤ length s.now }
    ensures { result ≡ le16 s.now at }
{
    u32::from(u16::from_le_bytes([s[at], s[at + 1]]))
}

// The 32-bit number at `at`.
pub fn read32(s: &[u8], at: usize) -> u32
    requires { at + 4 ≤ length s.now }
    ensures { result ≡ le32 s.now at }
{
    u32::from_le_bytes([s[at], s[at + 1], s[at + 2], s[at + 3]])
}

// Stores the low 16 bits of x at `at`.
pub fn put16(out: &mut [u8], at: usize, x: u32)
    requires { at + 2 ≤ length out.old }
    ensures { out.new ≡ take at out.old ++ bytes16 x ++ drop (at + 2) out.old }
{
    let low = (x % 65536) as u16;
    out[at..at + 2].copy_from_slice(&low.to_le_bytes());
}

// Stores x at `at`.
pub fn put32(out: &mut [u8], at: usize, x: u32)
    requires { at + 4 ≤ length out.old }
    ensures { out.new ≡ take at out.old ++ bytes32 x ++ drop (at + 4) out.old }
{
    out[at..at + 4].copy_from_slice(&x.to_le_bytes());
}
