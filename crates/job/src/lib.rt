// The runner: a job carries its plan and its record so far, and lets through exactly the beginnings of its plan's runs.
#![tactic(auto)]

ghost use Rattle.std.specs.Prelude.{◌≡◌, ◌≤◌, ◌<◌, length, Ok};
ghost use Rattle.plan.specs.PlanFile.{most_bytes};
ghost use Rattle.plan.specs.Reading.{read_of};
ghost use Rattle.job.specs.Job.{saying, no_job, fresh_job, start_with, start_of, zeros_from, untimed_job};
ghost use Rattle.job.specs.Numbers.{numbered};

use plan::Layout;
use runs::Ended;
use state::Entry;

mod timed;

#[derive(Clone, Copy, Debug, PartialEq, Eq)]
pub enum Status {
    Succeeded,
    Failed,
}

// Whether the run may end here, and if so whether it succeeded.
#[derive(Clone, Copy, Debug, PartialEq, Eq)]
pub enum End {
    Open,
    MayEnd(Status),
}

// What is told after the start and after each entry taken: bit n of `next` for each leaf n that may come next.
#[derive(Clone, Copy, Debug, PartialEq, Eq)]
pub struct Told {
    pub next: u64,
    pub end: End,
}

// Why a start or an entry is refused: what is wrong with the plan file; the entry may not come, or the job is none; the window file or the minute.
#[derive(Clone, Copy, Debug, PartialEq, Eq)]
pub enum Refusal {
    Plan(plan::Fault),
    Entry,
    Hours(hours::Fault),
}

pub type Answer = Result<Told, Refusal>;

// The bytes of the largest plan file: its four headings, and as many types, pairs, nodes and rule bytes as a plan may have.
const FILE: usize = 16
    + Job::MOST_ACTIONS as usize
    + 2 * plan::MOST_PAIRS as usize
    + 3 * NODES
    + Job::MOST_RULE as usize;

// A leaf, and so an entry, is a node.
const NODES: usize = Job::MOST_NODES as usize;

// The bytes of a window file that names each action: the most that one can have.
pub const MOST_WINDOWS: usize = 5 * Job::MOST_ACTIONS as usize;

// A job: the bytes of its plan file, and its record so far, two bytes an entry; and where it is timed, those of its window file and the minute of
// its last entry. The bytes past each are 0, and what says nothing is 0.
// A value by itself, with its areas and their lengths beside them: the papers' form. A caller may make one up, which `take` and `take_at` find out.
#[derive(Clone, Copy, PartialEq, Eq)]
pub struct Job {
    pub file: [u8; FILE],
    pub file_len: usize,
    pub entries: [u8; 2 * NODES],
    pub taken: usize,
    pub timed: bool,
    pub windows: [u8; MOST_WINDOWS],
    pub windows_len: usize,
    pub minute: u32,
}

#[derive(Drop)]
pub struct Taken {
    pub answer: Answer,
    pub job: Job,
}

impl From<Ended> for End {
    ghost use Rattle.job.specs.Job.{end_of};

    ghost from_gives = { λ e r. r ≡ end_of e };

    fn from(e: Ended) -> End {
        match e {
            Ended::Open => End::Open,
            Ended::Succeeded => End::MayEnd(Status::Succeeded),
            Ended::Failed => End::MayEnd(Status::Failed),
        }
    }
}

impl From<runs::Told> for Told {
    ghost use Rattle.job.specs.Job.{saying};

    ghost from_gives = { λ t r. r ≡ saying t };

    fn from(t: runs::Told) -> Told {
        Told {
            next: t.next,
            end: End::from(t.ended),
        }
    }
}

impl From<plan::Fault> for Refusal {
    ghost use Rattle.job.specs.declared.Refusal.TheVariants.{Plan};

    ghost from_gives = { λ f r. r ≡ Plan f };

    fn from(f: plan::Fault) -> Refusal {
        Refusal::Plan(f)
    }
}

impl From<hours::Fault> for Refusal {
    ghost use Rattle.job.specs.declared.Refusal.TheVariants.{Hours};

    ghost from_gives = { λ f r. r ≡ Hours f };

    fn from(f: hours::Fault) -> Refusal {
        Refusal::Hours(f)
    }
}

impl Refusal {
    ghost use Rattle.job.specs.Numbers.{number};

    // Document 01's number.
    pub fn number(self) -> u8
        ensures { result ≡ number self }
    {
        match self {
            Refusal::Plan(f) => f.number(),
            Refusal::Entry => 11,
            Refusal::Hours(f) => f.number(),
        }
    }
}

// An answer with the number in the place of the refusal: what is written or held against stored bytes is the number alone.
pub fn numbered(answer: Answer) -> Result<Told, u8>
    ensures { result ≡ numbered answer }
{
    match answer {
        Ok(told) => Ok(told),
        Err(refusal) => Err(refusal.number()),
    }
}

// Whether all bytes from `at` on are 0.
fn zeros_from(s: &[u8], at: usize) -> bool
    ensures { result ≡ zeros_from s.now at }
{
    (0..s.len()).all(|i| i < at || s[i] == 0)
}

// What a start that is refused hands back.
fn no_job() -> Job
    ensures { result ≡ no_job }
{
    Job::untimed([0u8; FILE], 0, [0u8; 2 * NODES], 0)
}

// The fresh job of a plan file.
fn fresh_job(s: &[u8]) -> Job
    requires { length s.now ≤ most_bytes }
    ensures { result ≡ fresh_job s.now }
{
    let mut file = [0u8; FILE];
    file[..s.len()].copy_from_slice(s);
    Job::untimed(file, s.len(), [0u8; 2 * NODES], 0)
}

// The job that a start makes from a plan file with this layout.
fn start_with(s: &[u8], l: Layout) -> Taken
    requires { read_of s.now ≡ Ok l }
    ensures { result ≡ start_with s.now l }
{
    let table = [0u8; NODES];
    let told = state::told_by(&l.process(s), &table);
    Taken {
        answer: Ok(told.into()),
        job: fresh_job(s),
    }
}

// How many actions, nodes and rule bytes a plan file may have.
#[derive(Drop)]
pub struct Limits {
    pub actions: u8,
    pub nodes: u8,
    pub rule: u8,
}

impl Job {
    ghost use Rattle.job.specs.Job.{limits, refusal, untimed_job, tidy, untimed, with_entry, take_of};
    ghost use Rattle.job.specs.Offer.{Sized};
    ghost use Rattle.job.specs.Timed.{start_timed_of, take_timed_of};
    ghost use Rattle.job.specs.TimedRunner.{Brings};

    // The limits of a plan file: the reader's own.
    pub const MOST_ACTIONS: u8 = plan::MOST_ACTIONS;

    pub const MOST_NODES: u8 = plan::MOST_NODES;

    pub const MOST_RULE: u8 = plan::MOST_RULE;

    // The three as a value: its contract is what holds the constants to document 01's numbers.
    pub fn limits() -> Limits
        ensures { result ≡ limits }
    {
        Limits {
            actions: Job::MOST_ACTIONS,
            nodes: Job::MOST_NODES,
            rule: Job::MOST_RULE,
        }
    }

    // The untimed job with this plan and record.
    fn untimed(file: [u8; FILE], file_len: usize, entries: [u8; 2 * NODES], taken: usize) -> Job
        ensures { result ≡ untimed_job file file_len entries taken }
    {
        Job {
            file,
            file_len,
            entries,
            taken,
            timed: false,
            windows: [0u8; MOST_WINDOWS],
            windows_len: 0,
            minute: 0,
        }
    }

    // Whether the lengths are in range and the bytes past the plan file and past the record are 0.
    fn is_tidy(&self) -> bool
        ensures { result ≡ tidy self.now }
    {
        self.file_len <= FILE
            && self.taken < NODES
            && zeros_from(&self.file, self.file_len)
            && zeros_from(&self.entries, 2 * self.taken)
    }

    // Whether the job has no window file and no minute.
    fn is_untimed(&self) -> bool
        ensures { result ≡ untimed self.now }
    {
        !self.timed && self.windows_len == 0 && self.minute == 0 && zeros_from(&self.windows, 0)
    }

    // The job with one entry more.
    fn with_entry(mut self, e: Entry) -> Job
        requires { self.taken < 63 }
        ensures { result ≡ with_entry self e }
    {
        self.entries[2 * self.taken] = e.leaf;
        self.entries[2 * self.taken + 1] = e.outcome;
        self.taken += 1;
        self
    }

    // It is refused, and the job is handed back unchanged.
    fn refused(self, why: Refusal) -> Taken
        ensures { result ≡ refusal why self }
    {
        Taken {
            answer: Err(why),
            job: self,
        }
    }

    // What is told of an entry, or why it is refused. A timed job counts as false.
    fn answer_to(&self, e: Entry) -> Answer
        ensures { result ≡ (take_of self.now e).answer }
    {
        if !(self.is_untimed() && self.is_tidy()) {
            return Err(Refusal::Entry);
        }
        let file = &self.file[..self.file_len];
        let Ok(layout) = plan::read(file) else {
            return Err(Refusal::Entry);
        };
        let process = layout.process(file);
        let Ok(mut table) = state::state_after(&process, &self.entries, self.taken) else {
            return Err(Refusal::Entry);
        };
        if !state::may_come(&process, &table, e.leaf, e.outcome) {
            return Err(Refusal::Entry);
        }
        table[usize::from(e.leaf)] = e.outcome;
        Ok(state::told_by(&process, &table).into())
    }

    // Starts a job from the bytes of a plan file.
    pub fn start(file: &[u8]) -> Taken
        ensures { result ≡ start_of file.now }
    {
        match plan::read(file) {
            Ok(l) => start_with(file, l),
            Err(f) => no_job().refused(f.into()),
        }
    }

    // Takes an entry, or refuses it and hands the job back unchanged. A timed job counts as false. Every value of the type has the sizes that the promises
    // on made-up jobs ask for.
    pub fn take(self, e: Entry) -> Taken
        ensures value { result ≡ take_of self e }
        ensures sized { Sized self }
    {
        match self.answer_to(e) {
            Ok(told) => Taken {
                answer: Ok(told),
                job: self.with_entry(e),
            },
            Err(why) => self.refused(why),
        }
    }

    // Starts a timed job from the bytes of a plan file and of a window file.
    pub fn start_timed(file: &[u8], windows: &[u8]) -> Taken
        ensures { result ≡ start_timed_of file.now windows.now }
    {
        match plan::read(file) {
            Ok(l) => timed::start_with(file, windows, l),
            Err(f) => no_job().refused(f.into()),
        }
    }

    // Takes an entry with its minute, or refuses it and hands the job back unchanged. An untimed job counts as false.
    pub fn take_at(self, e: Entry, minute: u32) -> Taken
        ensures value { result ≡ take_timed_of self e minute }
        ensures brings { Brings e minute }
    {
        match self.answer_at(e, minute) {
            Ok(told) => Taken {
                answer: Ok(told),
                job: Job {
                    minute,
                    ..self.with_entry(e)
                },
            },
            Err(why) => self.refused(why),
        }
    }
}
