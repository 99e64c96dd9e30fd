// Rules as people type them, turned into postfix order.
//
// The readers call each other in a cycle, a frame or more for each not, implies and bracket that is pending. So a pass without recursion goes first, which finds
// 14 and 15: the readers then meet only texts whose postfix list has at most 127 bytes, and nest at most 211 deep: five for each of 17 levels of
// brackets, and one for each pending not or implies, of which such a text has at most 126.
#![tactic(auto)]

ghost use Rattle.std.specs.Prelude.{◌≡◌, ◌≤◌};
ghost use Rattle.grammar.specs.Token.{and, or};
ghost use Rattle.grammar.specs.Readings.{chain, implication, negation, operand};
ghost use Rattle.formula.specs.Answer.{answer_of, Becomes, refusal};
ghost use Rattle.formula.specs.Readers.{Took};

use recognizer::count_of;
use tokens::{Token, next_token};

// The bytes of not, and and or in a rule.
const NOT: u8 = 0x80;

const AND: u8 = 0x81;

const OR: u8 = 0x82;

// The most postfix bytes.
const ROOM: usize = 127;

// Why a text is refused: it is outside the grammar or too deep, or its postfix bytes are too many.
#[derive(Clone, Copy, Debug, PartialEq, Eq)]
pub enum Refusal {
    NotARule,
    TooLong,
}

impl Refusal {
    ghost use Rattle.formula.specs.Numbers.{number};

    // Its number.
    pub fn number(self) -> u8
        ensures { result ≡ number self }
    {
        match self {
            Refusal::NotARule => 14,
            Refusal::TooLong => 15,
        }
    }
}

// What a typed rule becomes: how many postfix bytes, or why it is refused.
pub type Answer = Result<usize, Refusal>;

// The answer, with the postfix bytes and zeros after them.
#[derive(Drop)]
pub struct Turned {
    pub answer: Answer,
    pub bytes: [u8; ROOM],
}

// A place in the text, and the postfix bytes of what stands before it; there is no heap, so these have a fixed room.
#[derive(Drop)]
pub struct Reading {
    pub at: usize,
    pub len: usize,
    pub bytes: [u8; ROOM],
}

impl Reading {
    ghost use Rattle.formula.specs.Readers.{Moved, Pushed};

    // A postfix byte more; where there is no room, none.
    fn push(mut self, b: u8) -> Reading
        ensures { Pushed self b result }
    {
        if self.len < ROOM {
            self.bytes[self.len] = b;
            self.len += 1;
        }
        self
    }

    // The reading at another place.
    fn moved(self, at: usize) -> Reading
        ensures { Moved self at result }
    {
        Reading { at, ..self }
    }
}

// A letter, or a rule in brackets.
#[cycle(readers)]
fn bracket(text: &[u8], from: Reading, depth: usize) -> Reading
    ensures { Took operand text.now depth from result }
{
    let t = next_token(text, from.at);
    match t.kind {
        Token::Letter(action) => from.moved(t.at).push(action),
        Token::Opening if depth > 0 => {
            let inner = implication(text, from.moved(t.at), depth - 1);
            let closing = next_token(text, inner.at);
            inner.moved(closing.at)
        }
        _ => from,
    }
}

// "Not binds tightest"
#[cycle(readers)]
fn negation(text: &[u8], from: Reading, depth: usize) -> Reading
    ensures { Took negation text.now depth from result }
{
    let t = next_token(text, from.at);
    match t.kind {
        Token::Not => negation(text, from.moved(t.at), depth).push(NOT),
        _ => bracket(text, from, depth),
    }
}

// "then and"; "and and or group to the left"
#[cycle(readers)]
fn conjunction(text: &[u8], from: Reading, depth: usize) -> Reading
    ensures { Took (chain and) text.now depth from result }
{
    let mut r = negation(text, from, depth);
    let mut t = next_token(text, r.at);
    while t.kind == Token::And {
        r = negation(text, r.moved(t.at), depth).push(AND);
        t = next_token(text, r.at);
    }
    r
}

// "or"
#[cycle(readers)]
fn disjunction(text: &[u8], from: Reading, depth: usize) -> Reading
    ensures { Took (chain or) text.now depth from result }
{
    let mut r = conjunction(text, from, depth);
    let mut t = next_token(text, r.at);
    while t.kind == Token::Or {
        r = conjunction(text, r.moved(t.at), depth).push(OR);
        t = next_token(text, r.at);
    }
    r
}

// "implies to the right"; "p implies q" is "not p or q"
#[cycle(readers)]
fn implication(text: &[u8], from: Reading, depth: usize) -> Reading
    ensures { Took implication text.now depth from result }
{
    let left = disjunction(text, from, depth);
    let t = next_token(text, left.at);
    match t.kind {
        Token::Implies => implication(text, left.push(NOT).moved(t.at), depth).push(OR),
        _ => left,
    }
}

fn refused(why: Refusal) -> Turned
    ensures { result ≡ refusal why }
{
    Turned {
        answer: Err(why),
        bytes: [0; ROOM],
    }
}

// The readers' answer to a text that is a rule of n postfix bytes, where these fit.
fn read(text: &[u8], n: usize) -> Turned
    requires becomes { Becomes text.now n }
    requires n_bound { n ≤ 127 }
    ensures { result ≡ answer_of text.now }
{
    let start = Reading {
        at: 0,
        len: 0,
        bytes: [0; ROOM],
    };
    let bytes = implication(text, start, 16).bytes;
    Turned {
        answer: Ok(n),
        bytes,
    }
}

// A rule as people type it, in postfix order.
pub fn rule_of(text: &[u8]) -> Turned
    ensures { result ≡ answer_of text.now }
{
    match count_of(text) {
        None => refused(Refusal::NotARule),
        Some(n) if n > ROOM => refused(Refusal::TooLong),
        Some(n) => read(text, n),
    }
}
