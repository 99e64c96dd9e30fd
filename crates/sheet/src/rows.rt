// The rows of a table for a spreadsheet, after the names.
ghost use Rattle.std.specs.Prelude.{◌≡◌, [], Err};
ghost use Rattle.text.specs.Text.{appended, text_of};
ghost use Rattle.judge.specs.Shown.{shown_entries};
ghost use Rattle.sheet.specs.Row.{heading_line, gap, cell, cells, columns, row_of};

use judge::Judgement;
use text::Text;

// The first line of a table.
pub fn heading() -> Text
    ensures { result ≡ text_of heading_line }
{
    let mut t = Text::new();
    t.put(b"name\tverdict\tnumber\trun\n");
    t
}

// A blank more, but not before the first.
fn put_gap(t: &mut Text, i: usize)
    ensures { t.new ≡ appended t.old (gap i) }
{
    if i > 0 {
        t.push(b' ');
    }
}

// Leaf and outcome of the i-th entry more.
fn put_cell(t: &mut Text, i: usize, leaf: u8, outcome: u8)
    ensures { t.new ≡ appended t.old (cell i leaf outcome) }
{
    put_gap(t, i);
    t.put_decimal(u64::from(leaf));
    t.push(b':');
    t.put_decimal(u64::from(outcome));
}

// The entries of the run that is shown.
fn put_cells(t: &mut Text, run: &[u8; 126])
    ensures { t.new ≡ appended t.old (cells 0 (shown_entries run.now)) }
{
    for i in 0..judge::entry_count(run) {
        put_cell(t, i, run[2 * i], run[2 * i + 1]);
    }
}

// A word, a number and a tab more: the word is lent with the tabs around it.
fn put_columns(t: &mut Text, word: &[u8], number: u64)
    ensures { t.new ≡ appended t.old (columns word.now number) }
{
    t.put(word);
    t.put_decimal(number);
    t.push(b'\t');
}

fn put_refused(t: &mut Text, number: u64)
    ensures { t.new ≡ appended t.old (row_of (Err number) []) }
{
    put_columns(t, b"\trefused\t", number);
    t.push(b'\n');
}

// What stands in a row after the name.
#[tactic(auto, using(crate::proofs::Cells::violated_row, crate::proofs::Cells::refused_row))]
pub fn put_row(t: &mut Text, answer: Result<Judgement, u8>, run: &[u8; 126])
    ensures { t.new ≡ appended t.old (row_of answer run.now) }
{
    match answer {
        Ok(Judgement::Consistent) => t.put(b"\tconsistent\t\t\n"),
        Ok(Judgement::Violated(set)) => {
            put_columns(t, b"\tviolated\t", set as u64);
            put_cells(t, run);
            t.push(b'\n');
        }
        Err(number) => put_refused(t, u64::from(number)),
    }
}
