// The verdict on a plan: consistent, or the smallest set that breaks its rule with the plainest complete run that leaves it.
#![tactic(auto)]

ghost use Rattle.std.specs.Prelude.{◌≡◌, ◌*◌, ◌≤◌, length, Ok};
ghost use Rattle.plan.specs.Reading.{read_of};
ghost use Rattle.judge.specs.Verdict.{work_size, record_size, number, told, code_told};
ghost use Rattle.judge.specs.Shown.{shown_entries};
ghost use Rattle.judge.specs.Judged.{Judged};
ghost use Rattle.judge.specs.Inner.{JudgedPlan};

use outcomes::rows::Rows;
use plan::{Layout, Process};

// The bytes that a work area and a record area must have.
pub const WORK: usize = 65536;

pub const RECORD: usize = 126;

// Why there is no judgement: an area is too short, or the file is no plan file.
#[derive(Clone, Copy, Debug, PartialEq, Eq)]
pub enum Refusal {
    WorkArea,
    RecordArea,
    Plan(plan::Fault),
}

impl From<plan::Fault> for Refusal {
    ghost use Rattle.judge.specs.declared.Refusal.TheVariants.{Plan};

    ghost from_gives = { λ f r. r ≡ Plan f };

    fn from(f: plan::Fault) -> Refusal {
        Refusal::Plan(f)
    }
}

impl Refusal {
    // Document 01's number for it.
    pub fn number(self) -> u8
        ensures { result ≡ number self }
    {
        match self {
            Refusal::WorkArea => 10,
            Refusal::RecordArea => 12,
            Refusal::Plan(fault) => fault.number(),
        }
    }
}

#[derive(Clone, Copy, Debug, PartialEq, Eq)]
pub enum Judgement {
    Consistent,
    Violated(usize),
}

pub type Answer = Result<Judgement, Refusal>;

// An answer with the number in the place of a refusal.
pub fn told(answer: Answer) -> Result<Judgement, u8>
    ensures { result ≡ told answer }
{
    match answer {
        Ok(judgement) => Ok(judgement),
        Err(refusal) => Err(refusal.number()),
    }
}

// One number for an answer: 0 consistent, 65,536 and the set, twice 65,536 and the refusal's number, whatever byte that is.
pub fn code(answer: Result<Judgement, u8>) -> u32
    ensures { result ≡ code_told answer }
{
    match answer {
        Ok(Judgement::Consistent) => 0,
        Ok(Judgement::Violated(set)) => 65536 + (set % 65536) as u32,
        Err(number) => 131072 + u32::from(number),
    }
}

// An answer, and the bytes of the run that is shown beside it.
#[derive(Drop)]
pub struct Finding {
    pub judgement: Answer,
    pub run: [u8; 126],
}

// How many entries of a run are shown in record bytes: those before the first whose second byte is 0, or all.
pub fn entry_count(run: &[u8]) -> usize
    ensures value { result ≡ length (shown_entries run.now) }
    ensures upper_bound { 2 * result ≤ length run.now }
{
    let n = run.len() / 2;
    (0..n).position(|i| run[2 * i + 1] == 0).unwrap_or(n)
}

// Judges a plan by its process, its pairs and its rule.
fn judge<'a>(
    rows: &'a Rows,
    process: &Process<'a, 10>,
    pairs: &[u8],
    rule: &[u8],
    work: &mut [u8],
) -> (Judgement, [u8; 126])
    requires { work_size ≤ length work.old }
    ensures { JudgedPlan process.now.types.now pairs.now process.now.nodes.now rule.now work.old work.new result.0 result.1 }
{
    let root = sets::fill(rows, process, work);
    match least::find(rule, pairs, least::finals(root)) {
        None => (Judgement::Consistent, [0; 126]),
        Some(set) => (Judgement::Violated(set), plainest::show(rows, process, set)),
    }
}

// Judges a plan file with this layout. The rows of the chart are fetched once, and lent.
fn judge_file(file: &[u8], l: Layout, work: &mut [u8], shown: &mut [u8]) -> Judgement
    requires { (read_of file.now ≡ Ok l) × (work_size ≤ length work.old) × (record_size ≤ length shown.old) }
    ensures { Judged file.now work.old work.new shown.old shown.new (Ok result) }
{
    let rows = Rows::new();
    let process = l.process(file);
    let pairs = plan::part_of(file, l.pairs);
    let rule = plan::part_of(file, l.rule);
    let (judgement, run) = judge(&rows, &process, pairs, rule, work);
    work[..WORK].fill(0);
    shown[..RECORD].copy_from_slice(&run);
    judgement
}

// The verdict on a plan file. The work area is cleared, and the record area gets the run that is shown.
pub fn verdict(file: &[u8], work: &mut [u8], record: &mut [u8]) -> Answer
    ensures { Judged file.now work.old work.new «record».old «record».new result }
{
    if work.len() < WORK {
        return Err(Refusal::WorkArea);
    }
    if record.len() < RECORD {
        return Err(Refusal::RecordArea);
    }
    let l = plan::read(file)?;
    Ok(judge_file(file, l, work, record))
}
