// The smallest of a plan's sets that breaks its rule.
#![tactic(auto)]

ghost use Rattle.std.specs.Prelude.{List, ℕ};
ghost use Rattle.undos.specs.Masks.{Masks};
ghost use Rattle.rule.specs.Words.{Tells};
ghost use Rattle.least.specs.Least.{Finals, violates, LeastOf};

use summary::Summary;

// The sets of the whole process that complete runs leave: those under 1, 9, 13 and 14.
pub fn finals(s: Summary) -> [u64; 16]
    ensures { Finals s result }
{
    let Summary {
        s1,
        s9,
        s13,
        s14,
        ..
    } = s;
    family::join(s1, family::join(s9, family::join(s13, s14)))
}

// The sets of a word of the family that break the rule: bit i for the set 64 w + i. A word without sets is passed over.
fn violations(rule: &[u8], masks: &[u64; 256], sets: u64, w: u32) -> u64
    ensures { (pairs : List ℕ) → Masks pairs masks.now → Tells w result (λ set. violates rule.now pairs sets set) }
{
    if sets == 0 {
        return 0;
    }
    sets & !rule::satisfying(rule, masks, w)
}

// The smallest set of the family that breaks the rule; none where every set satisfies it. The pairs are made into masks once.
pub fn find(rule: &[u8], pairs: &[u8], f: [u64; 16]) -> Option<usize>
    ensures { LeastOf rule.now pairs.now f result }
{
    let mut masks = [0u64; 256];
    undos::fill(&mut masks, pairs);
    for w in 0..16 {
        let broken = violations(rule, &masks, f[w], w as u32);
        if broken != 0 {
            return Some(w * 64 + broken.trailing_zeros() as usize);
        }
    }
    None
}
