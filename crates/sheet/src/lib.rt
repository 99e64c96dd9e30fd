// What a place of a class's answer area says, as text: lines, or a row of a table.
#![tactic(auto)]

mod form;
mod names;
mod rows;

ghost use Rattle.std.specs.Prelude.{◌≡◌, ◌≤◌, length};
ghost use Rattle.text.specs.Lines.{numbered, refused};
ghost use Rattle.text.specs.Text.{text_of};
ghost use Rattle.place.specs.Place.{place_size};
ghost use Rattle.sheet.specs.Said.{judgement_in, run_in, said_by};
ghost use Rattle.sheet.specs.Lines.{plan_lines};
ghost use Rattle.sheet.specs.Row.{row_after_name};

pub use form::{Form, first_file, form_asked};
use judge::Judgement;
pub use names::clean;
use place::PLACE;
pub use rows::heading;
use text::Text;

// The verdict that a place holds. The number of a refusal is a byte of it, and may be any.
fn judgement_in(place: &[u8]) -> Result<Judgement, u8>
    requires { place_size ≤ length place.now }
    ensures { result ≡ judgement_in place.now }
{
    match place[0] {
        0 => Ok(Judgement::Consistent),
        1 => Ok(Judgement::Violated(blocks::number_at(place, 1))),
        _ => Err(place[1]),
    }
}

// The record bytes that it holds.
fn run_in(place: &[u8]) -> [u8; 126]
    requires { place_size ≤ length place.now }
    ensures { result ≡ run_in place.now }
{
    let mut run = [0; judge::RECORD];
    run.copy_from_slice(&place[4..PLACE]);
    run
}

// The lines of the i-th plan's place.
pub fn lines(i: usize, place: &[u8]) -> Text
    ensures { result ≡ text_of (said_by (plan_lines i) place.now) }
{
    let mut t = Text::new();
    if place.len() < PLACE {
        return t;
    }
    t.put_numbered(b"plan", i as u64);
    report::put_verdict(&mut t, judgement_in(place), &run_in(place));
    t
}

// The line of a call that is refused.
pub fn refusal(number: u8) -> Text
    ensures { result ≡ text_of (numbered refused number) }
{
    let mut t = Text::new();
    t.put_numbered(b"refused", u64::from(number));
    t
}

// A plan's row after its name.
pub fn row(place: &[u8]) -> Text
    ensures { result ≡ text_of (said_by row_after_name place.now) }
{
    let mut t = Text::new();
    if place.len() < PLACE {
        return t;
    }
    rows::put_row(&mut t, judgement_in(place), &run_in(place));
    t
}
