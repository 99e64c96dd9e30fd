// Blocks and byte areas: the heading of a block at a cursor, whether its body is there, and writing a part of a lent area.
// Nothing here knows what a plan is.
#![tactic(auto)]

ghost use Rattle.std.specs.Prelude.{◌≡◌, ◌+◌, ◌≤◌, ◌<◌, leb, length, replicate};
ghost use Rattle.blocks.specs.Block.{le16, heading_at, body_fits};
ghost use Rattle.blocks.specs.Area.{fits, written};

// Where a body lies: its first byte, and how many there are.
#[derive(Clone, Copy)]
pub struct Part {
    pub at: usize,
    pub len: usize,
}

// What a block says before its body: the body's kind, and how many bytes it has.
#[derive(Clone, Copy)]
pub struct Heading {
    pub kind: usize,
    pub len: usize,
}

// The little-endian number of the two bytes at `at`.
pub fn number_at(s: &[u8], at: usize) -> usize
    requires { at + 2 ≤ length s.now }
    ensures { (result ≡ le16 s.now at) × (result < 65536) }
{
    usize::from(u16::from_le_bytes([s[at], s[at + 1]]))
}

// Whether `n` bytes from `at` on lie within `len` bytes.
pub fn within(len: usize, at: usize, n: usize) -> bool
    ensures { result ≡ leb (at + n) len }
{
    at <= len && n <= len - at
}

// The heading at `at`; none where the input ends before it does.
pub fn heading_at(s: &[u8], at: usize) -> Option<Heading>
    ensures { result ≡ heading_at s.now at }
{
    if !within(s.len(), at, 4) {
        return None;
    }
    Some(Heading {
        kind: number_at(s, at + 2),
        len: number_at(s, at),
    })
}

// Whether the body of `len` bytes of the block at `at` is there in full.
pub fn body_fits(s: &[u8], at: usize, len: usize) -> bool
    ensures { result ≡ body_fits s.now at len }
{
    within(s.len(), at, 4) && within(s.len(), at + 4, len)
}

// Writes `src` into `dst` from `at` on, and answers true. Where it does not fit, nothing is written, and the answer is false.
pub fn copy(dst: &mut [u8], at: usize, src: &[u8]) -> bool
    ensures value { result ≡ fits dst.old at (length src.now) }
    ensures dst_after { dst.new ≡ written dst.old at src.now }
{
    if !within(dst.len(), at, src.len()) {
        return false;
    }
    dst[at..at + src.len()].copy_from_slice(src);
    true
}

// Writes `n` zeros into `dst` from `at` on, and answers true. Where they do not fit, nothing is written, and the answer is false.
pub fn clear(dst: &mut [u8], at: usize, n: usize) -> bool
    ensures value { result ≡ fits dst.old at n }
    ensures dst_after { dst.new ≡ written dst.old at (replicate n 0) }
{
    if !within(dst.len(), at, n) {
        return false;
    }
    dst[at..at + n].fill(0);
    true
}
