// The stack of values that a rule's bytes work on.
ghost use Rattle.std.specs.Prelude.{◌≡◌, ◌<◌, replicate};

use crate::Values;

// The values so far of the parts of a rule, the last one at `top`. The places are used in a round, so that a value more than they hold takes that of the oldest.
#[derive(Drop)]
pub struct Stack {
    places: [Values; 64],
    top: usize,
    ghost inside: { top < 64 },
}

impl Stack {
    ghost use Rattle.rule.specs.Stack.{nothing, last, Popped, Pushed, Stepped};

    pub fn new() -> Self
        ensures { (result.places ≡ replicate 64 nothing) × (result.top ≡ 0) }
    {
        Stack {
            places: [Values {
                positives: 0,
                negatives: 0,
            }; 64],
            top: 0,
        }
    }

    // Takes the last value off. Its place is cleared, which an empty stack has without a case of its own.
    pub fn pop(&mut self) -> Values
        ensures value { result ≡ last self.old }
        ensures after { Popped self.old self.new }
    {
        let v = self.places[self.top];
        self.places[self.top] = Values {
            positives: 0,
            negatives: 0,
        };
        self.top = (self.top + 63) % 64;
        v
    }

    pub fn push(&mut self, v: Values)
        ensures { Pushed v self.old self.new }
    {
        self.top = (self.top + 1) % 64;
        self.places[self.top] = v;
    }

    // What the byte `t` of a rule does: not, and, or, or an action.
    pub fn step(&mut self, t: u8, masks: &[u64; 256], w: u32)
        ensures { Stepped masks.now w t self.old self.new }
    {
        match t {
            0x80 => {
                let v = self.pop();
                self.push(Values {
                    positives: v.negatives,
                    negatives: v.positives,
                });
            }
            0x81 => {
                let v = self.pop();
                let u = self.pop();
                self.push(Values {
                    positives: u.positives & v.positives,
                    negatives: u.negatives | v.negatives,
                });
            }
            0x82 => {
                let v = self.pop();
                let u = self.pop();
                self.push(Values {
                    positives: u.positives | v.positives,
                    negatives: u.negatives & v.negatives,
                });
            }
            _ => self.push(crate::literal_of(masks, t, w)),
        }
    }
}
