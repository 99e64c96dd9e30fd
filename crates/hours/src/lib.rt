// Hours of the hall: the window file of a timed job, what its windows say of an entry's minute, and which minutes a record's last entry can
// have had.
#![tactic(auto)]

ghost use Rattle.std.specs.Prelude.{◌≡◌};

pub mod entries;
pub mod windows;

// When an action may come: from `opens` on and before `closes`, in minutes of the week.
#[derive(Clone, Copy)]
pub struct Window {
    pub opens: usize,
    pub closes: usize,
}

// Why a minute or a window file is refused: the minute is before the last one, or outside its window; the bytes are no window file.
#[derive(Clone, Copy, Debug, PartialEq, Eq)]
pub enum Fault {
    Early,
    Outside,
    Windows,
}

impl Fault {
    ghost use Rattle.hours.specs.Fault.{number};

    // Document 02's number for it.
    pub fn number(self) -> u8
        ensures { result ≡ number self }
    {
        match self {
            Fault::Early => 21,
            Fault::Outside => 22,
            Fault::Windows => 23,
        }
    }
}
