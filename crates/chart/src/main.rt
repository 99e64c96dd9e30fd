// Writes the outcome chart: a table for each form, under its name, with a row for each left code and a number for each right code.
#![tactic(auto)]

ghost use Rattle.std.specs.Prelude.{◌≡◌};
ghost use Rattle.text.specs.Lines.{each};
ghost use Rattle.text.specs.Text.{appended, text_of};
ghost use Rattle.chart.specs.Lines.{cell_text, table_text, chart_lines};

use text::Text;

// The cell at a place of the form's table.
#[tactic(auto, using(crate::proofs::Texts::within_row, crate::proofs::Texts::row_ends))]
fn put_cell(t: &mut Text, form: u8, place: u8)
    ensures { t.new ≡ appended t.old (cell_text form place) }
{
    let right = place % 7;
    t.put_decimal(u64::from(outcomes::chart::cell(form, place / 7, right)));
    t.push(if right < 6 { b' ' } else { b'\n' });
}

#[tactic(auto, using(text::proofs::Ends::each_step, text::proofs::Ends::each_end))]
fn put_cells(t: &mut Text, form: u8)
    ensures { t.new ≡ appended t.old (each (cell_text form) 0 49) }
{
    for place in 0..49 {
        put_cell(t, form, place);
    }
}

// A form's name, and its table.
#[tactic(auto, using(text::proofs::Texts::appended_both), unfolding(crate::specs::Lines::table_text))]
fn put_table(t: &mut Text, name: &[u8], form: u8)
    ensures { t.new ≡ appended t.old (table_text name.now form) }
{
    t.put_line(name);
    put_cells(t, form);
}

fn lines() -> Text
    ensures { result ≡ text_of chart_lines }
{
    let mut t = Text::new();
    put_table(&mut t, b"sequence", 3);
    put_table(&mut t, b"\nparallel", 4);
    put_table(&mut t, b"\nchoice", 5);
    put_table(&mut t, b"\ncompensation", 6);
    put_table(&mut t, b"\nhandler", 7);
    t
}

fn main(rt: HostRuntime) {
    let _ = output::show(&rt, &rt.stderr(), &lines());
}
