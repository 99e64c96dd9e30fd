// The group `formulas`: what a rule as people type it becomes, as one number, and its postfix bytes.
// A vector's body is the number expected, four bytes, the lowest first: how many postfix bytes there are, or 256 and the number that the text is
// refused by; the 127 bytes expected in the array; and then the text.
ghost use Rattle.std.specs.Prelude.{◌≡◌};
ghost use Rattle.vectors.specs.Formulas.{code_of, formulas_outcome};

use crate::outcome::{Outcome, held_answer};
use fields::number::four_at;
use formula::Answer;

// One number for an answer.
fn code(answer: Answer) -> u64
    ensures { result ≡ code_of answer }
{
    match answer {
        Ok(n) => n as u64,
        Err(why) => 256 + u64::from(why.number()),
    }
}

pub fn compare(body: &[u8]) -> Outcome
    ensures { result ≡ formulas_outcome body.now }
{
    if body.len() < 131 {
        return Outcome::Damaged;
    }
    let turned = formula::rule_of(&body[131..]);
    held_answer(
        u64::from(four_at(body, 0)),
        code(turned.answer),
        &turned.bytes,
        body,
        4,
    )
}
