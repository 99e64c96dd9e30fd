// Runs a job by hand: run PLAN, where PLAN is the path of a plan file, or run PLAN WINDOWS, a timed job, where WINDOWS is the path of a window file.
// Entries come on standard input, a line each.
//
// After the start and after each entry taken it writes a line `next` with the leaves that may come, ascending, each after a blank, and a line
// `open`, `may end succeeded` or `may end failed`. An entry that is refused gets `refused` and its number, and the session goes on. A plan that is
// refused gets `refused` and its number, a window file `refused 23`, and the program ends. Each line of input is answered as soon as it is there.
//
// A line is an entry where it is leaf and outcome in decimal with one blank between them and nothing else: `0 2`. In a timed session it is leaf,
// outcome and minute, with one blank between each two: `0 2 480`. Each number is written in the digits 0 to 9, with no sign and no zero before
// another digit; leaf and outcome are 0 to 255, and a minute is 0 to 4294967295. A line may have any length.
// A line that is no entry, an empty one too, gets `not an entry`, and the session goes on. A newline ends a line, and so does the end of the input
// where bytes of a line have come before it.
#![tactic(auto)]

ghost use Rattle.std.specs.Prelude.{◌≡◌, IsOk, IfOk};
ghost use Rattle.io.specs.Counts.{IsPrefixLen};
ghost use Rattle.session.specs.Session.{heard_all};

use job::{Job, Taken};
use output::Failed;
use session::Session;
use std::io::Print;

// Hears the bytes of one read, and answers each line that they end. Where no answer fails, each of them has been heard.
#[tactic(auto, using(session::proofs::Hearing::heard_step, session::proofs::Hearing::heard_end_lem))]
fn piece(rt: &HostRuntime, session: &mut Session, bytes: &[u8]) -> Result<(), Failed>
    ensures { IsOk result → session.new ≡ heard_all session.old bytes.now }
{
    for &b in bytes {
        output::show(rt, &rt.stderr(), &session.hear(b).text())?;
    }
    Ok(())
}

// Reads and answers what comes, until the input ends or something fails. A proved loop ends, and nothing says that the input does: the reads are counted
// up to a number that no session meets.
fn talk(rt: &HostRuntime, session: &mut Session) -> Result<(), Failed> {
    let mut buf = io::buffer();
    for _ in 0..u64::MAX {
        let n = input::read_some(&mut rt.stdin(), &mut buf).map_err(|e| output::fail(
            &rt.stderr(),
            b"standard input",
            e.why,
        ))?;
        if n == 0 {
            return output::show(rt, &rt.stderr(), &session.hear_end().text());
        }
        piece(rt, session, &buf[..n])?;
    }
    Ok(())
}

// Tells what a start tells, and goes on with the entries unless it is refused.
fn begin(rt: &HostRuntime, taken: Taken) -> Result<(), Failed> {
    let Taken { answer, job } = taken;
    output::show(rt, &rt.stderr(), &answers::lines(job::numbered(answer)))?;
    match answer {
        Ok(_) => talk(rt, &mut Session::new(job)),
        Err(_) => Ok(()),
    }
}

fn ask_for_a_plan(rt: &HostRuntime) -> Failed {
    let due =
        b"run: the path of a plan file is due, and for a timed job the path of a window file after it\n";
    // Where standard error takes nothing there is nobody left to tell.
    let _ = rt.stderr().write_all(due);
    Failed
}

// The length of the i-th argument, the path of a file, which is put into `path`; an empty one is none.
fn path_at(rt: &HostRuntime, i: usize, path: &mut [u8]) -> Result<usize, Failed>
    ensures { IfOk result (λ n. IsPrefixLen n path.new) }
{
    let n = input::arg_at(rt, i, path).map_err(|e| output::fail(
        &rt.stderr(),
        b"the path of a file",
        e.why,
    ))?;
    if n == 0 {
        return Err(ask_for_a_plan(rt));
    }
    Ok(n)
}

// A window file that is longer than any is refused, and so are its first MOST_WINDOWS + 1 bytes: they are no whole number of windows.
fn open_windows(rt: &HostRuntime, file: &[u8], path: &[u8]) -> Result<(), Failed> {
    let mut windows = [0u8; job::MOST_WINDOWS + 1];
    let n = input::fill_from(rt, path, &mut windows).map_err(|e| output::fail(
        &rt.stderr(),
        path,
        e.why,
    ))?;
    begin(rt, Job::start_timed(file, &windows[..n]))
}

// A job of the plan file: a timed one where a second argument is there.
fn start(rt: &HostRuntime, file: &[u8]) -> Result<(), Failed> {
    if input::arg_count(rt) == 2 {
        return begin(rt, Job::start(file));
    }
    let mut path = io::buffer();
    let n = path_at(rt, 2, &mut path)?;
    open_windows(rt, file, &path[..n])
}

// A file that is longer than the largest plan file is refused by the number of its first MOST_BYTES + 1 bytes.
fn open(rt: &HostRuntime, path: &[u8]) -> Result<(), Failed> {
    let mut file = [0u8; plan::MOST_BYTES + 1];
    let n = input::fill_from(rt, path, &mut file).map_err(|e| output::fail(
        &rt.stderr(),
        path,
        e.why,
    ))?;
    start(rt, &file[..n])
}

fn run(rt: &HostRuntime) -> Result<(), Failed> {
    let given = input::arg_count(rt);
    if given != 2 && given != 3 {
        return Err(ask_for_a_plan(rt));
    }
    let mut path = io::buffer();
    let n = path_at(rt, 1, &mut path)?;
    open(rt, &path[..n])
}

fn main(rt: HostRuntime) {
    let _ = run(&rt);
}
