// The tokens of a typed rule, one after the other.
#![tactic(auto)]

ghost use Rattle.std.specs.Prelude.{◌≡◌, ◌+◌, ◌≤◌, drop, length};
ghost use Rattle.grammar.specs.Next.{parted, stands, word_number, token_number, blanks};
ghost use Rattle.tokens.specs.Tokens.{next_of, size_of, token_of};

// A token, the letter of an action by the action's number; or what is none: bytes that spell no token, and the end.
#[derive(Clone, Copy, Debug, PartialEq, Eq)]
pub enum Token {
    Letter(u8),
    Not,
    And,
    Or,
    Implies,
    Opening,
    Closing,
    Wrong,
    End,
}

// A token, and the place after it.
#[derive(Clone, Copy, Debug, PartialEq, Eq)]
pub struct Next {
    pub kind: Token,
    pub at: usize,
}

impl Token {
    // How many bytes it takes.
    fn size(self) -> usize
        ensures { (result ≡ size_of self) × (result ≤ 7) }
    {
        match self {
            Token::Letter(_) | Token::Opening | Token::Closing => 1,
            Token::Or => 2,
            Token::Not | Token::And => 3,
            Token::Implies => 7,
            Token::Wrong | Token::End => 0,
        }
    }
}

// How many blanks the bytes begin with.
fn blanks_in(bytes: &[u8]) -> usize
    ensures { (result ≡ blanks bytes.now) × (result ≤ length bytes.now) }
{
    bytes.iter().take_while(|x| **x == b' ').count()
}

// Whether the bytes are at their end, or begin with a blank or a bracket.
#[tactic(auto, using(crate::proofs::Scan::parted_first))]
fn is_parted(bytes: &[u8]) -> bool
    ensures { result ≡ parted bytes.now }
{
    matches!(bytes, [] | [b' ' | b'(' | b')', ..])
}

// Whether the bytes begin with the word.
#[tactic(auto, using(crate::proofs::Scan::stands_first))]
fn stands(bytes: &[u8], word: &[u8]) -> bool
    ensures { result ≡ stands word.now bytes.now }
{
    bytes.starts_with(word) && is_parted(&bytes[word.len()..])
}

// The word that the bytes begin with.
#[tactic(auto, unfolding(grammar::specs::Next::word_number))]
fn word_in(bytes: &[u8]) -> Token
    ensures { result ≡ token_of (word_number bytes.now) }
{
    if stands(bytes, b"not") {
        return Token::Not;
    }
    if stands(bytes, b"and") {
        return Token::And;
    }
    if stands(bytes, b"or") {
        return Token::Or;
    }
    if stands(bytes, b"implies") {
        return Token::Implies;
    }
    Token::Wrong
}

// The token that the bytes begin with, which do not begin with a blank.
#[tactic(auto, using(crate::proofs::Scan::token_first))]
fn token_in(bytes: &[u8]) -> Token
    ensures { result ≡ token_of (token_number bytes.now) }
{
    match bytes {
        [] => Token::End,
        [b'(', ..] => Token::Opening,
        [b')', ..] => Token::Closing,
        [x @ b'a'..=b'j', rest @ ..] if is_parted(rest) => Token::Letter(*x - b'a'),
        _ => word_in(bytes),
    }
}

// The next token from a place on, which may lie behind the text.
#[tactic(auto, using(crate::proofs::Scan::next_none))]
pub fn next_token(text: &[u8], at: usize) -> Next
    ensures { result ≡ next_of text.now at }
{
    if at >= text.len() {
        return Next {
            kind: Token::End,
            at,
        };
    }
    let from = at + blanks_in(&text[at..]);
    let kind = token_in(&text[from..]);
    Next {
        kind,
        at: from + kind.size(),
    }
}
