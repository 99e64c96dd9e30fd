// In which form the plans of a class are told.
ghost use Rattle.std.specs.Prelude.{◌≡◌, ◌≤◌};
ghost use Rattle.sheet.specs.Form.{form_asked, first_file};

// By lines, or by a table, with its heading or without.
#[derive(Clone, Copy, Debug, PartialEq, Eq)]
pub enum Form {
    Lines,
    Table,
    Rows,
}

// The form that the first argument of a program asks for.
pub fn form_asked(word: &[u8]) -> Form
    ensures { result ≡ form_asked word.now }
{
    match word {
        b"--table" => Form::Table,
        b"--rows" => Form::Rows,
        _ => Form::Lines,
    }
}

// Which argument names the first file.
pub fn first_file(form: Form) -> usize
    ensures value { result ≡ first_file form }
    ensures upper_bound { result ≤ 2 }
{
    match form {
        Form::Lines => 1,
        Form::Table | Form::Rows => 2,
    }
}
