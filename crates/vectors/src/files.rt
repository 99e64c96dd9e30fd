// The group `files`: the number that a file is refused by.
// A vector's body is the number expected, one byte, 0 for a plan file, and then the bytes of the file.
ghost use Rattle.std.specs.Prelude.{◌≡◌};
ghost use Rattle.vectors.specs.Files.{files_outcome};

use crate::outcome::{Outcome, held};

pub fn compare(body: &[u8]) -> Outcome
    ensures { result ≡ files_outcome body.now }
{
    let Some((&expected, file)) = body.split_first() else {
        return Outcome::Damaged;
    };
    let found = match plan::read(file) {
        Ok(_) => 0,
        Err(why) => why.number(),
    };
    held(u64::from(expected), u64::from(found))
}
