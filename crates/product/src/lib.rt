// The product of two families: the unions of a set of the one and a set of the other.
#![tactic(auto)]

ghost use Rattle.std.specs.Prelude.{◌<◌, ◌^◌};
ghost use Rattle.product.specs.Product.{Product};
ghost use Rattle.product.specs.Steps.{TellsUnit, Spread, Doubled, Spreads, Picked, Grown};

// Whether the family has the empty set alone, as that of a node that did not run.
fn is_unit(f: [u64; 16]) -> bool
    ensures { TellsUnit f result }
{
    f[0] == 1 && f[1..].iter().all(|&w| w == 0)
}

// The sets of a word, action k added to each.
fn with_action(w: u64, k: usize) -> u64
    requires { k < 6 }
    ensures { Spread w (2 ^ k) result }
{
    (w | w << (1usize << k)) & family::pattern(k)
}

// The table of the sets of a word with each x below 2 ^ k becomes twice as long: with action k too.
fn double(s: &mut [u64; 64], k: usize)
    requires { k < 6 }
    ensures { Doubled s.old k s.new }
{
    let n = 1usize << k;
    for j in 0..n {
        s[n + j] = with_action(s[j], k);
    }
}

// The sets of a word with x, for each x below 64.
fn spreads(w: u64) -> [u64; 64]
    ensures { Spreads w 64 result }
{
    let mut s = [0; 64];
    s[0] = w;
    for k in 0..6 {
        double(&mut s, k);
    }
    s
}

// The words of the table at the bits of u.
fn picked(u: u64, s: &[u64; 64]) -> u64
    ensures { Picked u s.now 64 result }
{
    let mut r = 0;
    for x in 0..64 {
        if (u >> x) % 2 == 1 {
            r |= s[x];
        }
    }
    r
}

// Adds to the family r the unions of a set of a and a set of the word w, which is word i of a family.
fn grow(r: &mut [u64; 16], a: [u64; 16], w: u64, i: usize)
    requires { i < 16 }
    ensures { Grown a w i r.old r.new }
{
    let s = spreads(w);
    for h in 0..16 {
        if a[h] != 0 {
            r[h | i] |= picked(a[h], &s);
        }
    }
}

// The unions of a set of a and a set of b. For each word of b that has sets, and each low half x, the sets of that word with x are
// computed once; then whole words are joined. A side that has the empty set alone adds nothing to the other.
pub fn product(a: [u64; 16], b: [u64; 16]) -> [u64; 16]
    ensures { Product a b result }
{
    let mut r = family::empty();
    if family::is_empty(a) {
        return r;
    }
    if is_unit(a) {
        return b;
    }
    if is_unit(b) {
        return a;
    }
    for (i, &w) in b.iter().enumerate() {
        if w != 0 {
            grow(&mut r, a, w, i);
        }
    }
    r
}
