// The undo pairs, taken out once: one mask of undos for each action.
#![tactic(auto)]

ghost use Rattle.std.specs.Prelude.{◌≡◌};
ghost use Rattle.undos.specs.Masks.{bit, with_undo, Masks};

use bodies::pairs::{Pair, pair_at};

// The action's bit in a set; none past 63.
fn bit_of(action: u8) -> u64
    ensures { result ≡ bit action }
{
    if action < 64 { 1 << action } else { 0 }
}

// The undo put into the mask of the action.
fn add_undo(masks: &mut [u64; 256], action: u8, undo: u8)
    ensures { masks.new ≡ with_undo masks.old action undo }
{
    masks[usize::from(action)] |= bit_of(undo);
}

// For each number that a byte can be, the undos that the pairs give the action of this number.
pub fn fill(masks: &mut [u64; 256], pairs: &[u8])
    ensures { Masks pairs.now masks.new }
{
    *masks = [0; 256];
    for i in 0..pairs.len() / 2 {
        let Pair { action, undo } = pair_at(pairs, i);
        add_undo(masks, action, undo);
    }
}
