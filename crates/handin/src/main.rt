// Judges a class of plans handed in together: handin FILE.., up to sixteen paths of plan files.
//
// For each file, in the order given, it writes a line `plan` with its number, from 0, and then the lines that the program `verdict` writes to it; a plan
// that is refused does not stop the next. Where the call is refused as a whole, as for more than sixteen files, it writes the one line `refused` and the
// number.
// `handin --table FILE..` writes a table instead, for a spreadsheet: a heading and a row for each file; `handin --rows FILE..` writes the rows alone.
//
// Files that cannot be read are told on standard error, each by its name; then nothing is judged, and nothing is written on standard output.
#![tactic(auto)]

ghost use Rattle.std.specs.Prelude.{◌*◌, ◌≤◌, length, IfOk};
ghost use Rattle.io.specs.Counts.{IsPrefixLen};
ghost use Rattle.handed.specs.Files.{most_files};
ghost use Rattle.place.specs.Place.{place_size};

use output::Failed;
use place::PLACE;
use sheet::Form;
use std::io::Print;

// Room for one file more than a class may have, each as long as any that is read: the library refuses these as too many, and the program counts none.
const ROOM: usize = (handed::FILES + 1) * (2 + (plan::MOST_BYTES + 1));

// The i-th argument, put into `name`.
fn name_at(rt: &HostRuntime, i: usize, name: &mut [u8]) -> Result<usize, Failed>
    ensures { IfOk result (λ n. IsPrefixLen n name.new) }
{
    input::arg_at(rt, i, name).map_err(|e| output::fail(&rt.stderr(), b"the name of a file", e.why))
}

// Puts a file after those so far, which end at `done`, and answers where it ends. One that is longer than the largest plan file is refused by the number
// of its first MOST_BYTES + 1 bytes. One that has no room comes after more than a class may have.
fn gather_file(
    rt: &HostRuntime,
    name: &[u8],
    files: &mut [u8],
    done: usize,
) -> Result<usize, Failed>
    requires { done ≤ length files.old }
    ensures { IfOk result (λ n. n ≤ length files.new) }
{
    let mut file = [0u8; plan::MOST_BYTES + 1];
    let n = input::fill_from(rt, name, &mut file).map_err(|e| output::fail(
        &rt.stderr(),
        name,
        e.why,
    ))?;
    Ok(handed::append(files, done, &file[..n]))
}

// Puts the file that the i-th argument names after those so far.
fn gather_named(rt: &HostRuntime, i: usize, files: &mut [u8], done: usize) -> Result<usize, Failed>
    requires { done ≤ length files.old }
    ensures { IfOk result (λ n. n ≤ length files.new) }
{
    let mut buf = io::buffer();
    let n = name_at(rt, i, &mut buf)?;
    gather_file(rt, &buf[..n], files, done)
}

// All files named, from argument `first` on: how many bytes they have as they are handed in. Each that cannot be read is told.
fn gather(rt: &HostRuntime, first: usize, files: &mut [u8]) -> Result<usize, Failed>
    ensures { IfOk result (λ n. IsPrefixLen n files.new) }
{
    let mut len = 0;
    let mut all = Ok(());
    for i in first..input::arg_count(rt) {
        match gather_named(rt, i, files, len) {
            Ok(n) => len = n,
            Err(failed) => all = Err(failed),
        }
    }
    all?;
    Ok(len)
}

// The row of the file that the i-th argument names: the name, cleaned, and then the rest of the row.
fn tell_row(rt: &HostRuntime, i: usize, place: &[u8]) -> Result<(), Failed> {
    let mut buf = io::buffer();
    let n = name_at(rt, i, &mut buf)?;
    let name = &mut buf[..n];
    sheet::clean(name);
    rt.write_all(name)
        .map_err(|why| output::fail(&rt.stderr(), b"standard output", why))?;
    output::show(rt, &rt.stderr(), &sheet::row(place))
}

// What is told of the i-th plan, whose file the argument `name` names.
fn tell_plan(
    rt: &HostRuntime,
    form: Form,
    name: usize,
    i: usize,
    place: &[u8],
) -> Result<(), Failed> {
    match form {
        Form::Lines => output::show(rt, &rt.stderr(), &sheet::lines(i, place)),
        Form::Table | Form::Rows => tell_row(rt, name, place),
    }
}

// What is told of the plans, up to a write that fails.
fn tell_plans(rt: &HostRuntime, form: Form, count: usize, answers: &[u8]) -> Result<(), Failed>
    requires count_le_most_files { count ≤ most_files }
    requires count_in_bounds { place_size * count ≤ length answers.now }
{
    if form == Form::Table {
        output::show(rt, &rt.stderr(), &sheet::heading())?;
    }
    let first = sheet::first_file(form);
    for i in 0..count {
        let at = PLACE * i;
        tell_plan(rt, form, first + i, i, &answers[at..at + PLACE])?;
    }
    Ok(())
}

// Judges the files in one call.
fn judge_class(rt: &HostRuntime, form: Form, files: &[u8]) -> Result<(), Failed> {
    let mut work = io::large_buffer();
    let mut answers = [0u8; handed::FILES * PLACE];
    match class::verdicts(files, &mut work, &mut answers) {
        Ok(count) => tell_plans(rt, form, count, &answers),
        Err(refusal) => output::show(rt, &rt.stderr(), &sheet::refusal(refusal.number())),
    }
}

fn ask_for_files(rt: &HostRuntime) -> Failed {
    let due =
        b"handin: the paths of plan files are due, after --table or --rows where a table or its rows are to be written\n";
    // Where standard error takes nothing there is nobody left to tell.
    let _ = rt.stderr().write_all(due);
    Failed
}

fn run(rt: &HostRuntime) -> Result<(), Failed> {
    let mut buf = io::buffer();
    // A first argument that has no room asks for no form, and is told where the file of this name is due.
    let n = input::arg_at(rt, 1, &mut buf).unwrap_or(0);
    let form = sheet::form_asked(&buf[..n]);
    let first = sheet::first_file(form);
    if input::arg_count(rt) <= first {
        return Err(ask_for_files(rt));
    }
    let mut files = [0u8; ROOM];
    let len = gather(rt, first, &mut files)?;
    judge_class(rt, form, &files[..len])
}

fn main(rt: HostRuntime) {
    let _ = run(&rt);
}
