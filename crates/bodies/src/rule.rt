// Kind 4: the rule.
ghost use Rattle.std.specs.Prelude.{◌≡◌};
ghost use Rattle.bodies.specs.Rule.{taken, rule_ok};

// How many values the byte `t` takes; none where it may not stand in a rule.
fn taken_by(actions: usize, t: u8) -> Option<usize>
    ensures { result ≡ taken actions t }
{
    if usize::from(t) < actions {
        return Some(0);
    }
    match t {
        0x80 => Some(1),
        0x81 | 0x82 => Some(2),
        _ => None,
    }
}

// Whether exactly one value remains.
pub fn rule_ok(b: &[u8], actions: usize) -> bool
    ensures { result ≡ rule_ok actions b.now }
{
    let mut depth: usize = 0;
    for &t in b {
        let Some(k) = taken_by(actions, t) else {
            return false;
        };
        if depth < k {
            return false;
        }
        depth = depth + 1 - k;
    }
    depth == 1
}
