// The group `verdicts`: the verdict on a file, as one number, and the run that it shows.
// A vector's body is the number expected, four bytes, the lowest first; a byte that says which lent areas are a byte too short, 1 for the work area
// and 2 for the record area; the 126 bytes expected in the record area, which is lent full of zeros; and then the bytes of the file.
ghost use Rattle.std.specs.Prelude.{◌≡◌, ◌++◌, ◌-◌, ◌/◌, ◌%◌, ◌≤◌, length, take, drop};
ghost use Rattle.judge.specs.Verdict.{verdict_of, code_of};
ghost use Rattle.judge.specs.Record.{record_for};
ghost use Rattle.vectors.specs.Verdicts.{verdicts_outcome};

use crate::outcome::{Outcome, held_answer};
use fields::number::four_at;

// The number of the verdict on a file, in areas of which `short` tells which lack a byte.
fn code_in(short: u8, file: &[u8], work: &mut [u8], record: &mut [u8]) -> u64
    requires { (1 ≤ length work.old) × (1 ≤ length «record».old) }
    ensures value { result ≡ code_of (verdict_of file.now (length work.old - short % 2) (length «record».old - short / 2 % 2)) }
    ensures record_after { «record».new ≡ record_for file.now (verdict_of file.now (length work.old - short % 2) (length «record».old - short / 2 % 2)) (take (length «record».old - short / 2 % 2) «record».old) ++ drop (length «record».old - short / 2 % 2) «record».old }
{
    let w = work.len() - usize::from(short % 2);
    let r = record.len() - usize::from(short / 2 % 2);
    u64::from(judge::code(judge::told(judge::verdict(file, &mut work[..w], &mut record[..r]))))
}

pub fn compare(body: &[u8]) -> Outcome
    ensures { result ≡ verdicts_outcome body.now }
{
    if body.len() < 131 {
        return Outcome::Damaged;
    }
    let mut work = [0u8; 65536];
    let mut shown = [0u8; 126];
    let found = code_in(body[4], &body[131..], &mut work, &mut shown);
    held_answer(u64::from(four_at(body, 0)), found, &shown, body, 5)
}
