// The group `classes`: the verdicts on a class, as one number, and the places that they fill.
// A vector's body is the number expected, four bytes, the lowest first; a byte that is odd where the work area is a byte too short; the length of the
// answer area, two bytes, at most that of seventeen places; as many bytes, which are expected in that area, lent full of the byte 170; and then the
// input of the call.
ghost use Rattle.std.specs.Prelude.{◌≡◌, ◌+◌, ◌-◌, ◌%◌, ◌≤◌, length, take};
ghost use Rattle.class.specs.Outcome.{code_of};
ghost use Rattle.class.specs.Computed.{call_of, answer_of, area_of};
ghost use Rattle.vectors.specs.Classes.{held_in, classes_outcome};

use crate::outcome::{Outcome, held_answer};
use fields::number::{four_at, two_at};

// The most bytes of an answer area: seventeen places.
const MOST: usize = 17 * place::PLACE;

// The number of the answer to a call, with a work area that lacks a byte where `short` is odd.
fn code_in(short: u8, input: &[u8], work: &mut [u8], answers: &mut [u8]) -> u64
    requires { 1 ≤ length work.old }
    ensures value { result ≡ code_of (answer_of (call_of input.now (length work.old - short % 2) (length answers.old))) }
    ensures answers_after { answers.new ≡ area_of (call_of input.now (length work.old - short % 2) (length answers.old)) answers.old }
{
    let w = work.len() - usize::from(short % 2);
    u64::from(class::code(class::told(class::verdicts(input, &mut work[..w], answers))))
}

// What a whole body comes to, with the first `n` bytes of `answers` as answer area.
fn held_in(body: &[u8], n: usize, work: &mut [u8], answers: &mut [u8]) -> Outcome
    requires in_bounds { 1 ≤ length work.old }
    requires n_in_bounds { n ≤ length answers.old }
    requires n_in_bounds_2 { 7 + n ≤ length body.now }
    ensures { result ≡ held_in body.now n (length work.old) (take n answers.old) }
{
    let start = 7 + n;
    let found = code_in(body[4], &body[start..], work, &mut answers[..n]);
    held_answer(u64::from(four_at(body, 0)), found, &answers[..n], body, 7)
}

pub fn compare(body: &[u8]) -> Outcome
    ensures { result ≡ classes_outcome body.now }
{
    let n = usize::from(two_at(body, 5));
    if n > MOST || body.len() < 7 + n {
        return Outcome::Damaged;
    }
    let mut work = [0u8; 65536];
    let mut answers = [170u8; MOST];
    held_in(body, n, &mut work, &mut answers)
}
