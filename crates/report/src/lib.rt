// The lines of a verdict as a text: `consistent`; or `violated` and the set, and then a line for each entry of the run that is shown, leaf and
// outcome; or `refused` and document 01's number for why.
#![tactic(auto)]

ghost use Rattle.std.specs.Prelude.{◌≡◌, Ok};
ghost use Rattle.text.specs.Decimal.{decimal};
ghost use Rattle.text.specs.Lines.{numbered};
ghost use Rattle.text.specs.Text.{appended, text_of};
ghost use Rattle.report.specs.Lines.{run_lines, told_lines};
ghost use Rattle.report.specs.Tells.{Finds, Tells, TellsNamed};

use judge::{Finding, Judgement};
use text::Text;

// Leaf and outcome on a line more.
fn put_entry(t: &mut Text, leaf: u8, outcome: u8)
    ensures { t.new ≡ appended t.old (numbered (decimal leaf) outcome) }
{
    t.put_decimal(u64::from(leaf));
    t.end_line(u64::from(outcome));
}

// The entries of the run that is shown.
fn put_run(t: &mut Text, run: &[u8; 126])
    ensures { t.new ≡ appended t.old (run_lines run.now) }
{
    for i in 0..judge::entry_count(run) {
        put_entry(t, run[2 * i], run[2 * i + 1]);
    }
}

fn put_judgement(t: &mut Text, judgement: Judgement, run: &[u8; 126])
    ensures { t.new ≡ appended t.old (told_lines (Ok judgement) run.now) }
{
    match judgement {
        Judgement::Consistent => t.put_line(b"consistent"),
        Judgement::Violated(set) => {
            t.put_numbered(b"violated", set as u64);
            put_run(t, run);
        }
    }
}

// The lines of a verdict more: a refusal is told by its number.
pub fn put_verdict(t: &mut Text, answer: Result<Judgement, u8>, run: &[u8; 126])
    ensures { t.new ≡ appended t.old (told_lines answer run.now) }
{
    match answer {
        Ok(judgement) => put_judgement(t, judgement, run),
        Err(number) => t.put_numbered(b"refused", u64::from(number)),
    }
}

// The lines of a verdict.
pub fn lines(answer: Result<Judgement, u8>, run: [u8; 126]) -> Text
    ensures { result ≡ text_of (told_lines answer run) }
{
    let mut t = Text::new();
    put_verdict(&mut t, answer, &run);
    t
}

// The verdict on a plan file.
fn find(file: &[u8]) -> Finding
    ensures { Finds file.now result }
{
    let mut work = [0; judge::WORK];
    let mut run = [0; judge::RECORD];
    let judgement = judge::verdict(file, &mut work, &mut run);
    Finding { judgement, run }
}

// The lines of the verdict on a plan file.
pub fn verdict_lines(file: &[u8]) -> Text
    ensures { Tells file.now result }
{
    let Finding { judgement, run } = find(file);
    lines(judge::told(judgement), run)
}

// A name on a line of its own, and the lines of the verdict on a plan file.
pub fn named_lines(name: &[u8], file: &[u8]) -> Text
    ensures { TellsNamed name.now file.now result }
{
    let Finding { judgement, run } = find(file);
    let mut t = Text::new();
    t.put_line(name);
    put_verdict(&mut t, judge::told(judgement), &run);
    t
}
