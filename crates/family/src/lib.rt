// Families of action sets. An action set is a number below 1,024, bit a for action a; a family has one bit for each of them, in sixteen
// words of 64 bits.
#![tactic(auto)]

ghost use Rattle.family.specs.Family.{Empty, Single, Joined, TellsEmpty, Having};

// The family with no set.
pub fn empty() -> [u64; 16]
    ensures { Empty result }
{
    [0; 16]
}

// The family of the set s alone; of no set where s is 1,024 or more.
pub fn single(s: usize) -> [u64; 16]
    ensures { Single s result }
{
    let mut r = empty();
    if s < 1024 {
        r[s / 64] = 1 << (s % 64);
    }
    r
}

// Whether the family has no set.
pub fn is_empty(f: [u64; 16]) -> bool
    ensures { TellsEmpty f result }
{
    f.iter().all(|&w| w == 0)
}

// Adds the sets of f to a family.
pub fn add(to: &mut [u64; 16], f: [u64; 16])
    ensures { Joined to.old f to.new }
{
    for i in 0..16 {
        to[i] |= f[i];
    }
}

// The sets of a and those of b.
pub fn join(a: [u64; 16], b: [u64; 16]) -> [u64; 16]
    ensures { Joined a b result }
{
    let mut r = a;
    add(&mut r, b);
    r
}

// The places of a word whose number has the action: one of six patterns, and none from action 6 on.
pub fn pattern(action: usize) -> u64
    ensures { Having action 0 result }
{
    match action {
        0 => 0xaaaaaaaaaaaaaaaa,
        1 => 0xcccccccccccccccc,
        2 => 0xf0f0f0f0f0f0f0f0,
        3 => 0xff00ff00ff00ff00,
        4 => 0xffff0000ffff0000,
        5 => 0xffffffff00000000,
        _ => 0,
    }
}

// The sets of word w that have the action: its pattern below 6, and from there on all or none, by the number of the word.
pub fn having(action: usize, w: usize) -> u64
    ensures { Having action w result }
{
    if action < 6 {
        return pattern(action);
    }
    let high = action - 6;
    if high < 64 && (w >> high) % 2 == 1 {
        u64::MAX
    } else {
        0
    }
}
