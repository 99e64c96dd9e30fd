// Writing a text to a stream, and telling what failed. No contract can say what a stream takes: the bytes that are handed over are those of a function that has one, and
// they are handed over once.
#![tactic(auto)]

ghost use Rattle.std.specs.Prelude.{◌≡◌, IsOk, min, length, take};

use std::io;
use std::io::Print;
use text::Text;

// Something has failed and was told: what is left is to end.
#[derive(Clone, Copy)]
pub struct Failed;

// The bytes of a text that are handed over: the first `len`, as far as there are so many.
fn shown(bytes: &[u8], len: usize) -> &[u8]
    ensures { result.now ≡ take (min len (length bytes.now)) bytes.now }
{
    &bytes[..len.min(bytes.len())]
}

// Writes the text, and answers whether it was taken: an empty one always, without a call.
pub fn write<P: Print>(to: &P, t: &Text) -> io::Result<()>
    ensures { t.now.len ≡ 0 → IsOk result }
{
    if t.len == 0 {
        return Ok(());
    }
    to.write_all(shown(&t.bytes, t.len))
}

// Writes the text to standard output, and tells on the other stream where it is not taken.
pub fn show<P: Print, E: Print>(to: &P, err: &E, t: &Text) -> Result<(), Failed>
    ensures { t.now.len ≡ 0 → IsOk result }
{
    write(to, t).map_err(|why| fail(err, b"standard output", why))
}

// What failed, as the caller names it, a colon and why, on a line.
fn line<P: Print>(to: &P, what: &[u8], why: io::Error) -> io::Result<()> {
    to.write_all(what)?;
    to.println(format_args!(": {why}"))
}

// Tells on a stream what failed, and why. Whether that was taken is not asked.
pub fn fail<P: Print>(to: &P, what: &[u8], why: io::Error) -> Failed {
    let _ = line(to, what, why);
    Failed
}
