// Kind 2: the undo pairs.
ghost use Rattle.std.specs.Prelude.{◌≡◌, ◌<◌};
ghost use Rattle.blocks.specs.Bounded.{every};
ghost use Rattle.bodies.specs.Pairs.{pair_count, first, second, pairs_of, apart_ok, pair_ok, pairs_ok};

// An action and its undo action.
#[derive(Clone, Copy)]
pub struct Pair {
    pub action: u8,
    pub undo: u8,
}

// Pair i.
pub fn pair_at(b: &[u8], i: usize) -> Pair
    requires { i < pair_count b.now }
    ensures { (result.action ≡ first b.now i) × (result.undo ≡ second b.now i) }
{
    Pair {
        action: b[2 * i],
        undo: b[2 * i + 1],
    }
}

// Whether pair i, which is `x`, may stand beside pair j, which is `y`.
fn apart_ok(i: usize, x: Pair, j: usize, y: Pair) -> bool
    ensures { result ≡ apart_ok i x.action x.undo j y.action y.undo }
{
    x.action != y.undo && (i == j || x.action != y.action || x.undo != y.undo)
}

// Whether pair i may stand beside every pair.
fn apart_from_all(b: &[u8], i: usize) -> bool
    requires { i < pair_count b.now }
    ensures { result ≡ every (pair_count b.now) (λ j. apart_ok i (first b.now i) (second b.now i) j (first b.now j) (second b.now j)) }
{
    (0..b.len() / 2).all(|j| apart_ok(i, pair_at(b, i), j, pair_at(b, j)))
}

// How many pairs the action is first in.
fn pairs_of(b: &[u8], action: u8) -> usize
    ensures { result ≡ pairs_of b.now action }
{
    (0..b.len() / 2)
        .map(|i| usize::from(b[2 * i] == action))
        .sum()
}

fn pair_ok(b: &[u8], actions: usize, i: usize) -> bool
    requires { i < pair_count b.now }
    ensures { result ≡ pair_ok actions b.now i }
{
    let Pair { action, undo } = pair_at(b, i);
    usize::from(action) < actions
        && usize::from(undo) < actions
        && pairs_of(b, action) <= 3
        && apart_from_all(b, i)
}

// Whether the pairs keep the pair rule.
pub fn pairs_ok(b: &[u8], actions: usize) -> bool
    ensures { result ≡ pairs_ok actions b.now }
{
    (0..b.len() / 2).all(|i| pair_ok(b, actions, i))
}
