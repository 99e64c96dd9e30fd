// The numbers in an area of bytes, the lowest byte first. A byte past the end counts as 0, so that every place has a number.
ghost use Rattle.std.specs.Prelude.{◌≡◌, ◌+◌, ◌<◌, get_or};
ghost use Rattle.blocks.specs.Block.{le16};
ghost use Rattle.fields.specs.Number.{four_at, number_at, IsBytesAt};

// The `N` bytes from `at` on.
fn bytes_at<const N: usize>(s: &[u8], at: usize) -> [u8; N]
    ensures { IsBytesAt s.now at result }
{
    let mut bytes = [0; N];
    if let Some(rest) = s.get(at..) {
        let n = rest.len().min(N);
        bytes[..n].copy_from_slice(&rest[..n]);
    }
    bytes
}

// The number of the two bytes at `at`.
pub fn two_at(s: &[u8], at: usize) -> u16
    ensures { result ≡ le16 s.now at }
{
    u16::from_le_bytes(bytes_at(s, at))
}

// The number of the four bytes at `at`.
pub fn four_at(s: &[u8], at: usize) -> u32
    ensures { result ≡ four_at s.now at }
{
    u32::from_le_bytes(bytes_at(s, at))
}

// The number of the eight bytes at `at`.
pub fn number_at(s: &[u8], at: usize) -> u64
    ensures { result ≡ number_at s.now at }
{
    u64::from_le_bytes(bytes_at(s, at))
}
