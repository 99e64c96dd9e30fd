// Whether a text is a typed rule, and how many postfix bytes it becomes: in one pass and without recursion, so that a text may be of any length.
#![tactic(auto)]

ghost use Rattle.std.specs.Prelude.{◌≡◌, ◌-◌, ◌^◌, ◌<◌};
ghost use Rattle.recognizer.specs.Count.{count_of};

use tokens::{Token, next_token};

// How many brackets may be open at once.
const DEEPEST: usize = 16;

// What the tokens so far leave: whether an operand is due or an operator, how many brackets are open, and how many postfix bytes they become.
#[derive(Clone, Copy, Debug, PartialEq, Eq)]
pub struct Pass {
    pub due: bool,
    pub depth: usize,
    pub count: usize,
}

impl Pass {
    ghost use Rattle.recognizer.specs.Pass.{ended, stepped};

    // After a token; none where it may not come.
    fn step(self, token: Token) -> Option<Pass>
        requires { self.count < 2 ^ 64 - 2 }
        ensures { result ≡ stepped self token }
    {
        let Pass { due, depth, count } = self;
        let (due, depth, more) = match token {
            Token::Letter(_) if due => (false, depth, 1),
            Token::Not if due => (true, depth, 1),
            Token::Opening if due && depth < DEEPEST => (true, depth + 1, 0),
            Token::And | Token::Or if !due => (true, depth, 1),
            Token::Implies if !due => (true, depth, 2),
            Token::Closing if !due && depth > 0 => (false, depth - 1, 0),
            _ => return None,
        };
        Some(Pass {
            due,
            depth,
            count: count + more,
        })
    }

    // What the tokens make of the text where none follows.
    fn ended(self, last: Token) -> Option<usize>
        ensures { result ≡ ended self last }
    {
        (last != Token::Wrong && !self.due && self.depth == 0).then_some(self.count)
    }
}

// How many postfix bytes the text becomes, if it is a rule.
pub fn count_of(text: &[u8]) -> Option<usize>
    ensures { result ≡ count_of text.now }
{
    let mut pass = Pass {
        due: true,
        depth: 0,
        count: 0,
    };
    let mut at = 0;
    loop {
        let next = next_token(text, at);
        pass = match next.kind {
            Token::Wrong | Token::End => return pass.ended(next.kind),
            _ => pass.step(next.kind)?,
        };
        at = next.at;
    }
}
