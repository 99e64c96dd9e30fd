// What becomes of a vector, from the bytes of its body. Nothing here reads or writes a file: the program `compare` does.
#![tactic(auto)]

ghost use Rattle.std.specs.Prelude.{◌≡◌};
ghost use Rattle.vectors.specs.Groups.{outcome_in};

use outcome::Outcome;

pub mod classes;
pub mod files;
pub mod formulas;
pub mod outcome;
pub mod sessions;
pub mod verdicts;

// `Hours`: vectors as those of `Runs`, from a data file of their own.
#[derive(Clone, Copy, Debug, PartialEq, Eq)]
pub enum Group {
    Files,
    Runs,
    Hours,
    Verdicts,
    Formulas,
    Classes,
}

// What a vector of the group comes to.
pub fn compare(group: Group, body: &[u8]) -> Outcome
    ensures { result ≡ outcome_in group body.now }
{
    match group {
        Group::Files => files::compare(body),
        Group::Runs | Group::Hours => sessions::compare(body),
        Group::Verdicts => verdicts::compare(body),
        Group::Formulas => formulas::compare(body),
        Group::Classes => classes::compare(body),
    }
}
