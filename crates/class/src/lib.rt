// A whole class handed in together: up to sixteen plan files, each after a two-byte length, and a place of 130 bytes for each in a lent area,
// with what the single verdict says of it.
#![tactic(auto)]

ghost use Rattle.std.specs.Prelude.{◌≡◌, ◌≤◌, length};
ghost use Rattle.judge.specs.Verdict.{work_size};
ghost use Rattle.place.specs.Work.{work_left};
ghost use Rattle.class.specs.Steps.{Ready, PlacesAfter};
ghost use Rattle.class.specs.Outcome.{Outcome, number, told, code_told};

use place::PLACE;

// Why a whole call is refused: an area is too short, or the input is not that of a class.
#[derive(Clone, Copy, Debug, PartialEq, Eq)]
pub enum Refusal {
    WorkArea,
    Files,
    AnswerArea,
}

impl Refusal {
    // Document 02's number for it.
    pub fn number(self) -> u8
        ensures { result ≡ number self }
    {
        match self {
            Refusal::WorkArea => 10,
            Refusal::Files => 19,
            Refusal::AnswerArea => 20,
        }
    }
}

// How many places are filled.
pub type Answer = Result<usize, Refusal>;

// An answer with the number in the place of a refusal.
pub fn told(answer: Answer) -> Result<usize, u8>
    ensures { result ≡ told answer }
{
    match answer {
        Ok(n) => Ok(n),
        Err(refusal) => Err(refusal.number()),
    }
}

// One number for an answer: how many places are filled, or twice 65,536 and the refusal's number, whatever byte that is.
pub fn code(answer: Result<usize, u8>) -> u32
    ensures { result ≡ code_told answer }
{
    match answer {
        Ok(n) => (n % 65536) as u32,
        Err(number) => 131072 + u32::from(number),
    }
}

// Fills the place of each file, and answers whether the work area is cleared. The part of the answer area that starts at a plan's place is lent on.
fn fill_all(input: &[u8], work: &mut [u8], answers: &mut [u8]) -> bool
    requires work_size_in_bounds { work_size ≤ length work.old }
    requires ready { Ready input.now answers.old }
    ensures work_after { work.new ≡ work_left result work.old }
    ensures places_after { PlacesAfter input.now answers.old answers.new }
{
    let mut cleared = false;
    let mut at = 0;
    let mut to = 0;
    // By the lengths in the input: how far a file goes is not known before it is reached.
    while at < input.len() {
        let start = at + 2;
        let end = start + blocks::number_at(input, at);
        cleared |= place::fill(&input[start..end], work, &mut answers[to..]);
        at = end;
        to += PLACE;
    }
    cleared
}

// The verdicts on a class. The work area is cleared once more only where no verdict has cleared it, since that takes as long as a verdict on a small plan.
pub fn verdicts(input: &[u8], work: &mut [u8], answers: &mut [u8]) -> Answer
    ensures { Outcome input.now work.old work.new answers.old answers.new result }
{
    if work.len() < judge::WORK {
        return Err(Refusal::WorkArea);
    }
    let Some(n) = handed::count_files(input) else {
        return Err(Refusal::Files);
    };
    if answers.len() < PLACE * n {
        return Err(Refusal::AnswerArea);
    }
    if !fill_all(input, work, answers) {
        work[..judge::WORK].fill(0);
    }
    Ok(n)
}
