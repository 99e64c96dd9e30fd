// The input of a call, put together file by file.
ghost use Rattle.std.specs.Prelude.{◌≡◌};
ghost use Rattle.handed.specs.HandIn.{room_for, input_with, end_with};

// Whether it can be put there: its length has two bytes, and all of it has room from `at` on.
fn has_room(input: &[u8], at: usize, file: &[u8]) -> bool
    ensures { result ≡ room_for input.now at file.now }
{
    file.len() < 65536 && blocks::within(input.len(), at, 2 + file.len())
}

// Puts a file into the input from `at` on, after its length, and answers where the next one goes. Where it cannot be put, nothing changes.
pub fn append(input: &mut [u8], at: usize, file: &[u8]) -> usize
    ensures value { result ≡ end_with input.old at file.now }
    ensures input_after { input.new ≡ input_with input.old at file.now }
{
    if !has_room(input, at, file) {
        return at;
    }
    blocks::copy(input, at + 2, file);
    blocks::copy(input, at, &u16::to_le_bytes(file.len() as u16));
    at + (2 + file.len())
}
