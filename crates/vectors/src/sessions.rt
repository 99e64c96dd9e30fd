// The groups `runs` and `hours`: what a runner tells and lets through. Numbers have their lowest byte first.
// A vector's body is a byte and then, for 0, the length of a plan file, two bytes, the file and the answer to its start; for 2, a timed start: the
// lengths of a plan file and of a window file, two bytes each, the files and the answer; for any other byte a job that is made up: its fields in their
// order, lengths and the number of entries in eight bytes each, whether it is timed in one (1: it is), the minute in four. Then steps, seventeen bytes
// each: a byte, 1 for an entry with a minute; the entry; the minute, four bytes; and the answer to it. After a step the job has to be as it was, and
// where the entry was taken have that entry more and the step's minute, if it has one.
ghost use Rattle.std.specs.Prelude.{◌≡◌, ◌+◌, ◌*◌, ◌≤◌, length};
ghost use Rattle.vectors.specs.Runs.{stepped_to, stepped, agreeing, steps_outcome, started_with, session_outcome, timed_outcome, job_at, steps_at, made_up_outcome, runs_outcome};

use crate::outcome::{Outcome, held};
use fields::answer::is_answer;
use fields::jobs::left_by;
use fields::number::{four_at, number_at, two_at};
use job::{Job, Taken};
use state::Entry;

// The job that a step leaves, where the answer taken stands at `at` and the job handed back is the one that it leaves, with this minute.
fn step_to(taken: Taken, job: Job, e: Entry, minute: u32, s: &[u8], at: usize) -> Option<Job>
    requires { at + 10 ≤ length s.now }
    ensures { result ≡ stepped_to taken job e minute s.now at }
{
    if is_answer(job::numbered(taken.answer), s, at)
        && left_by(s[at], job, e, minute) == taken.job
    {
        Some(taken.job)
    } else {
        None
    }
}

// The step whose bytes stand at `at`.
#[tactic(auto, unfolding(crate::specs::Runs::stepped))]
fn step(job: Job, s: &[u8], at: usize) -> Option<Job>
    requires { at + 17 ≤ length s.now }
    ensures { result ≡ stepped job s.now at }
{
    let e = Entry {
        leaf: s[at + 1],
        outcome: s[at + 2],
    };
    if s[at] == 1 {
        let minute = four_at(s, at + 3);
        return step_to(job.take_at(e, minute), job, e, minute, s, at + 7);
    }
    step_to(job.take(e), job, e, job.minute, s, at + 7)
}

// Of the `n` steps from `at` on, those before the first that does not agree.
fn steps(mut job: Job, s: &[u8], at: usize, n: usize) -> usize
    requires { at + 17 * n ≤ length s.now }
    ensures { (result ≡ agreeing n job s.now at) × (result ≤ n) }
{
    for i in 0..n {
        let Some(next) = step(job, s, at + 17 * i) else {
            return i;
        };
        job = next;
    }
    n
}

// Steps from `at` to the end, where `before` answers agree already. What differs is told by the number of answers that agree.
#[tactic(auto, unfolding(crate::specs::Runs::steps_outcome))]
fn continued(job: Job, s: &[u8], at: usize, before: u64) -> Outcome
    requires { (at ≤ length s.now) × (before ≤ 1) }
    ensures { result ≡ steps_outcome job s.now at before }
{
    let left = s.len() - at;
    if left % 17 != 0 {
        return Outcome::Damaged;
    }
    let n = left / 17;
    let agree = steps(job, s, at, n);
    held(n as u64 + before, agree as u64 + before)
}

// A start whose answer stands at `at`, and steps after it.
#[tactic(auto, unfolding(crate::specs::Runs::started_with))]
fn started(taken: Taken, s: &[u8], at: usize) -> Outcome
    requires { at + 10 ≤ length s.now }
    ensures { result ≡ started_with taken s.now at }
{
    if !is_answer(job::numbered(taken.answer), s, at) {
        return held(1, 0);
    }
    continued(taken.job, s, at + 10, 1)
}

#[tactic(auto, unfolding(crate::specs::Runs::session_outcome))]
fn session(s: &[u8]) -> Outcome
    ensures { result ≡ session_outcome s.now }
{
    let end = 3 + usize::from(two_at(s, 1));
    if s.len() < end + 10 {
        return Outcome::Damaged;
    }
    started(Job::start(&s[3..end]), s, end)
}

#[tactic(auto, unfolding(crate::specs::Runs::timed_outcome))]
fn timed_session(s: &[u8]) -> Outcome
    ensures { result ≡ timed_outcome s.now }
{
    let middle = 5 + usize::from(two_at(s, 1));
    let end = middle + usize::from(two_at(s, 3));
    if s.len() < end + 10 {
        return Outcome::Damaged;
    }
    started(Job::start_timed(&s[5..middle], &s[middle..end]), s, end)
}

// Where the parts of a made-up job stand, after its first byte and the area of its plan file, and its steps.
const LENGTH_AT: usize = plan::MOST_BYTES + 1;

const RECORD_AT: usize = LENGTH_AT + 8;

const TAKEN_AT: usize = RECORD_AT + 126;

const TIMED_AT: usize = TAKEN_AT + 8;

const WINDOWS_AT: usize = TIMED_AT + 1;

const WINDOWS_LENGTH_AT: usize = WINDOWS_AT + job::MOST_WINDOWS;

const MINUTE_AT: usize = WINDOWS_LENGTH_AT + 8;

const STEPS_AT: usize = MINUTE_AT + 4;

// The job whose bytes stand after the first.
fn job_at(s: &[u8]) -> Job
    requires { steps_at ≤ length s.now }
    ensures { result ≡ job_at s.now }
{
    let mut file = [0u8; plan::MOST_BYTES];
    let mut entries = [0u8; 126];
    let mut windows = [0u8; job::MOST_WINDOWS];
    file.copy_from_slice(&s[1..LENGTH_AT]);
    entries.copy_from_slice(&s[RECORD_AT..TAKEN_AT]);
    windows.copy_from_slice(&s[WINDOWS_AT..WINDOWS_LENGTH_AT]);
    Job {
        file,
        file_len: number_at(s, LENGTH_AT) as usize,
        entries,
        taken: number_at(s, TAKEN_AT) as usize,
        timed: s[TIMED_AT] == 1,
        windows,
        windows_len: number_at(s, WINDOWS_LENGTH_AT) as usize,
        minute: four_at(s, MINUTE_AT),
    }
}

#[tactic(auto, unfolding(crate::specs::Runs::made_up_outcome))]
fn made_up(s: &[u8]) -> Outcome
    ensures { result ≡ made_up_outcome s.now }
{
    if s.len() < STEPS_AT {
        return Outcome::Damaged;
    }
    continued(job_at(s), s, STEPS_AT, 0)
}

pub fn compare(body: &[u8]) -> Outcome
    ensures { result ≡ runs_outcome body.now }
{
    match body.first() {
        None => Outcome::Damaged,
        Some(0) => session(body),
        Some(2) => timed_session(body),
        Some(_) => made_up(body),
    }
}
