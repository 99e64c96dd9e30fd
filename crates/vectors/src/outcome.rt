// What becomes of a vector.
ghost use Rattle.std.specs.Prelude.{◌≡◌, ◌+◌, ◌≤◌, length};
ghost use Rattle.vectors.specs.Outcome.{held_against, alike, answer_held};

// `Damaged`: the data file does not have the vector whole.
#[derive(Clone, Copy, Debug, PartialEq, Eq)]
pub enum Outcome {
    Agrees,
    Differs { expected: u64, found: u64 },
    Damaged,
}

// What is found is held against what is expected.
pub fn held(expected: u64, found: u64) -> Outcome
    ensures { result ≡ held_against expected found }
{
    if expected == found {
        Outcome::Agrees
    } else {
        Outcome::Differs { expected, found }
    }
}

// How many of the bytes shown, from the first on, are those of the body from `at` on.
fn alike(shown: &[u8], body: &[u8], at: usize) -> usize
    requires { at + length shown.now ≤ length body.now }
    ensures { result ≡ alike (length shown.now) 0 shown.now body.now at }
{
    (0..shown.len())
        .find(|&i| shown[i] != body[at + i])
        .unwrap_or(shown.len())
}

// A number found and bytes shown are held against the number and the bytes, those of the body from `at` on, that are expected. What differs is told by
// the numbers or, where these agree, by how many bytes do.
pub fn held_answer(expected: u64, found: u64, shown: &[u8], body: &[u8], at: usize) -> Outcome
    requires { at + length shown.now ≤ length body.now }
    ensures { result ≡ answer_held expected found (length shown.now) shown.now body.now at }
{
    if expected != found {
        return Outcome::Differs { expected, found };
    }
    held(shown.len() as u64, alike(shown, body, at) as u64)
}
