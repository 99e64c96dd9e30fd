// What is written of a plan file that is read and not judged: `accepted`, or `refused` and document 01's number for why.
#![tactic(auto)]

ghost use Rattle.std.specs.Prelude.{◌≡◌};
ghost use Rattle.text.specs.Text.{text_of};
ghost use Rattle.plan.specs.Reading.{read_of};
ghost use Rattle.inspection.specs.Lines.{inspect_line};

use text::Text;

// The line that tells whether the file is accepted.
pub fn answer(file: &[u8]) -> Text
    ensures { result ≡ text_of (inspect_line (read_of file.now)) }
{
    let mut line = Text::new();
    match plan::read(file) {
        Ok(_) => line.put_line(b"accepted"),
        Err(fault) => line.put_numbered(b"refused", u64::from(fault.number())),
    }
    line
}
