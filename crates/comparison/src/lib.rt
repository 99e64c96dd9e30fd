// All the vectors of a data file, compared with the product, and the lines that tell of them.
//
// A data file is the number of its vectors, then the vectors. A vector is the length of its name, the length of its body, the name, and
// the body. These numbers have four bytes each, the lowest first. What a body holds is its group's to say, in the crate `vectors`.
#![tactic(auto)]

ghost use Rattle.std.specs.Prelude.{◌≡◌, ◌≤◌, ◌<◌, length};
ghost use Rattle.comparison.specs.Data.{start_at, body_at, counted, compared_of};

use fields::number::four_at;
use vectors::Group;
use vectors::outcome::Outcome;

pub mod lines;

// A vector that differs: its number, counted from 1, where it stands, and what was expected and found.
#[derive(Clone, Copy, Debug, PartialEq, Eq)]
pub struct Difference {
    pub number: u64,
    pub at: usize,
    pub expected: u64,
    pub found: u64,
}

// The vectors that were compared, those of them that agree, whether the data file has just those that it says, and the first that differs.
#[derive(Clone, Copy, Debug, PartialEq, Eq)]
pub struct Comparison {
    pub vectors: u64,
    pub agree: u64,
    pub whole: bool,
    pub first: Option<Difference>,
}

// Where the body of the vector at `at` starts, if its name is there, with at most 64 bytes.
#[tactic(auto, unfolding(crate::specs::Data::is_named))]
fn body_start(s: &[u8], at: usize) -> Option<usize>
    ensures { result ≡ start_at s.now at }
{
    let n = four_at(s, at) as usize;
    if n <= 64 && 8 <= s.len() && at <= s.len() - 8 && n <= s.len() - 8 - at {
        Some(at + 8 + n)
    } else {
        None
    }
}

// Where its body starts and ends, if it is there too.
#[tactic(auto, unfolding(crate::specs::Data::is_named, crate::specs::Data::is_whole))]
fn body_at(s: &[u8], at: usize) -> Option<(usize, usize)>
    ensures { result ≡ body_at s.now at }
{
    let start = body_start(s, at)?;
    let n = four_at(s, at + 4) as usize;
    if n <= s.len() - start {
        Some((start, start + n))
    } else {
        None
    }
}

impl Comparison {
    // One vector more, which stands at `at` and had this outcome. The first difference stays.
    fn count(&mut self, at: usize, outcome: Outcome)
        requires { (self.old.agree ≤ self.old.vectors) × (self.old.vectors < 4294967296) }
        ensures { self.new ≡ counted self.old at outcome }
    {
        match outcome {
            Outcome::Agrees => {
                self.vectors += 1;
                self.agree += 1;
            }
            Outcome::Differs { expected, found } => {
                self.vectors += 1;
                self.first = self.first.or(Some(Difference {
                    number: self.vectors,
                    at,
                    expected,
                    found,
                }));
            }
            Outcome::Damaged => self.whole = false,
        }
    }
}

// Compares the vectors of a data file, up to the first that is not whole.
pub fn compared(group: Group, s: &[u8]) -> Comparison
    ensures { result ≡ compared_of group s.now }
{
    let mut c = Comparison {
        vectors: 0,
        agree: 0,
        whole: 4 <= s.len(),
        first: None,
    };
    if !c.whole {
        return c;
    }
    let mut at = 4;
    'vectors: for _ in 0..four_at(s, 0) {
        let Some((start, end)) = body_at(s, at) else {
            c.whole = false;
            return c;
        };
        c.count(at, vectors::compare(group, &s[start..end]));
        if !c.whole {
            return c;
        }
        at = end;
    }
    c.whole = at == s.len();
    c
}
