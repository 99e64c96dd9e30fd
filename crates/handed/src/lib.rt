// The files of a class as they are handed in: each after its length in two bytes. How many there are, and putting one more after them.
#![tactic(auto)]

ghost use Rattle.std.specs.Prelude.{◌≡◌, ◌≤◌, length};
ghost use Rattle.handed.specs.Cursor.{NextAt, CountOf};

mod input;

pub use input::append;

// The most files of a class.
pub const FILES: usize = 16;

// Where the file at a cursor ends; none where its length is cut, or the file.
fn end_of(input: &[u8], at: usize) -> Option<usize>
    requires { at ≤ length input.now }
    ensures { NextAt input.now at result }
{
    let left = input.len() - at;
    if left < 2 {
        return None;
    }
    let len = blocks::number_at(input, at);
    if left - 2 < len {
        return None;
    }
    Some(at + 2 + len)
}

// How many files an input has; none where one is cut, or there are too many. The lengths in the input move the cursor.
pub fn count_files(input: &[u8]) -> Option<usize>
    ensures { CountOf input.now result }
{
    let mut at = 0;
    let mut n = 0;
    while at < input.len() {
        if n == FILES {
            return None;
        }
        at = end_of(input, at)?;
        n += 1;
    }
    Some(n)
}
