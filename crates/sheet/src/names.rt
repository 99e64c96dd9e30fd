// Names as they stand in a table.
ghost use Rattle.std.specs.Prelude.{◌≡◌};
ghost use Rattle.sheet.specs.Row.{clean_byte, clean_name};

fn clean_byte(b: u8) -> u8
    ensures { result ≡ clean_byte b }
{
    match b {
        b'\t' | b'\n' => b' ',
        _ => b,
    }
}

// The name that a row begins with: no tab or newline in it.
pub fn clean(name: &mut [u8])
    ensures { name.new ≡ clean_name name.old }
{
    for b in name.iter_mut() {
        *b = clean_byte(*b);
    }
}
