// Summaries in a lent area of bytes: the one at place i from byte 1,408 * i on, code after code, little-endian words.
#![tactic(auto)]

ghost use Rattle.std.specs.Prelude.{◌≡◌, ◌+◌, ◌≤◌, length};
ghost use Rattle.area.specs.Area.{word_at, words_at, loaded, WordWritten, Written, StoreAnswer};

use summary::Summary;

// The bytes of a summary, and the codes whose families lie there, in this order.
const SIZE: usize = 1408;

const CODES: [u8; 11] = [1, 2, 3, 4, 6, 7, 9, 10, 11, 13, 14];

// The little-endian word of the eight bytes at `at`.
fn word_at(area: &[u8], at: usize) -> u64
    requires { at + 8 ≤ length area.now }
    ensures { result ≡ word_at area.now at }
{
    u64::from_le_bytes([
        area[at],
        area[at + 1],
        area[at + 2],
        area[at + 3],
        area[at + 4],
        area[at + 5],
        area[at + 6],
        area[at + 7],
    ])
}

// The family whose words stand at `at`.
fn load_family(area: &[u8], at: usize) -> [u64; 16]
    requires { at + 128 ≤ length area.now }
    ensures { result ≡ words_at 16 area.now at }
{
    let mut f = [0; 16];
    for i in 0..16 {
        f[i] = word_at(area, at + i * 8);
    }
    f
}

// Writes a word at `at`, which the compiler makes one store.
fn store_word(area: &mut [u8], at: usize, w: u64)
    requires { at + 8 ≤ length area.old }
    ensures { WordWritten area.old at w area.new }
{
    area[at..at + 8].copy_from_slice(&w.to_le_bytes());
}

// Writes the words of a family at `at`.
fn store_family(area: &mut [u8], at: usize, f: [u64; 16])
    requires { at + 128 ≤ length area.old }
    ensures { Written area.old at f area.new }
{
    for i in 0..16 {
        store_word(area, at + i * 8, f[i]);
    }
}

// The summary at place i; one with no sets where the area has no room for it.
pub fn load(area: &[u8], i: usize) -> Summary
    ensures { result ≡ loaded area.now i }
{
    if area.len() / SIZE <= i {
        return Summary::empty();
    }
    let family = |k: usize| load_family(area, SIZE * i + 128 * k);
    Summary {
        s1: family(0),
        s2: family(1),
        s3: family(2),
        s4: family(3),
        s6: family(4),
        s7: family(5),
        s9: family(6),
        s10: family(7),
        s11: family(8),
        s13: family(9),
        s14: family(10),
    }
}

// Writes a summary at place i, and answers true. Where the area has no room for it, nothing is written, and the answer is false.
pub fn store(area: &mut [u8], i: usize, s: Summary) -> bool
    ensures { StoreAnswer area.old i s area.new result }
{
    if area.len() / SIZE <= i {
        return false;
    }
    for (k, &code) in CODES.iter().enumerate() {
        store_family(area, SIZE * i + 128 * k, s.family_of(code));
    }
    true
}
