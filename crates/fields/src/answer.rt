// A runner's answer, with the number in the place of a refusal, as ten bytes: that number or 0, the eight bytes of the leaves that may come, and the end:
// 0 open, 1 succeeded, 2 failed.
ghost use Rattle.std.specs.Prelude.{◌≡◌, ◌+◌, ◌≤◌, length};
ghost use Rattle.job.specs.Numbers.{end_number};
ghost use Rattle.fields.specs.Answer.{is_answer};

use crate::number::number_at;
use job::{End, Status, Told};

fn end_number(e: End) -> u8
    ensures { result ≡ end_number e }
{
    match e {
        End::Open => 0,
        End::MayEnd(Status::Succeeded) => 1,
        End::MayEnd(Status::Failed) => 2,
    }
}

// Whether the answer is the one whose bytes stand at `at`.
#[tactic(auto, unfolding(crate::specs::Answer::is_answer))]
pub fn is_answer(a: Result<Told, u8>, s: &[u8], at: usize) -> bool
    requires { at + 10 ≤ length s.now }
    ensures { result ≡ is_answer a s.now at }
{
    let (number, next, end) = match a {
        Ok(told) => (0, told.next, end_number(told.end)),
        Err(number) => (number, 0, 0),
    };
    number == s[at] && next == number_at(s, at + 1) && end == s[at + 9]
}
