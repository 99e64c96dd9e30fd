// Whether action sets satisfy a rule, 64 sets at a time: the sets 64 w to 64 w + 63 are the bits of one word. The rule's bytes and the masks of
// undos are lent; nothing else of a plan is seen.
#![tactic(auto)]

ghost use Rattle.std.specs.Prelude.{◌≡◌, List, ℕ};
ghost use Rattle.meaning.specs.Literal.{literal};
ghost use Rattle.meaning.specs.Value.{satisfies};
ghost use Rattle.undos.specs.Masks.{Masks};
ghost use Rattle.rule.specs.Words.{shared, Tells, TellsNumber, TellsValues};

mod stack;

use stack::Stack;

// The two values of a part of the rule at the sets of a word.
#[derive(Clone, Copy)]
struct Values {
    pub positives: u64,
    pub negatives: u64,
}

// The sets of a word that have some action of a mask, and those that have more than one.
#[derive(Clone, Copy)]
struct Met {
    pub some: u64,
    pub more: u64,
}

// The sets of word w that have some action of the mask, and more than one, action by action. No index counts: the lowest action is taken off the rest.
fn meeting(mask: u64, w: u32) -> Met
    ensures { TellsNumber w result (λ set. shared set mask) }
{
    let mut met = Met { some: 0, more: 0 };
    let mut rest = mask;
    while rest != 0 {
        let sets = family::having(rest.trailing_zeros() as usize, w as usize);
        met.more |= met.some & sets;
        met.some |= sets;
        rest &= rest - 1;
    }
    met
}

// The two values of the action.
fn literal_of(masks: &[u64; 256], action: u8, w: u32) -> Values
    ensures { (pairs : List ℕ) → Masks pairs masks.now → TellsValues w result (λ set. literal pairs set action) }
{
    let finished = family::having(usize::from(action), w as usize);
    let Met { some, more } = meeting(masks[usize::from(action)], w);
    Values {
        positives: finished & !some,
        negatives: (finished & some & !more) | !(finished | some),
    }
}

// Which sets of word w satisfy the rule: bit i for the set 64 w + i. Every masks are those of some pairs (`EveryMasks` of `undos`), so this fixes the answer.
pub fn satisfying(rule: &[u8], masks: &[u64; 256], w: u32) -> u64
    ensures { (pairs : List ℕ) → Masks pairs masks.now → Tells w result (λ set. satisfies rule.now pairs set) }
{
    let mut stack = Stack::new();
    for &t in rule {
        stack.step(t, masks, w);
    }
    stack.pop().positives
}
