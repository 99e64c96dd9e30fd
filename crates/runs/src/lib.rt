// Beginnings of runs. What stands here as code are the types of the cells that tell where a process stands after some entries of a run: the
// definitions and the theorems in specs/ and proofs/ speak of them, and the functions over them are in the crate `cells`.
#![tactic(auto)]

ghost use Rattle.std.specs.Prelude.{◌≡◌};
ghost use Rattle.runs.specs.Cells.{ended_of};
ghost use Rattle.runs.specs.ThreeLevels.{composite_form};
ghost use Rattle.process.specs.Forms.{form_of};

// How a process has ended so far. Of a leaf: Open where it has not run.
#[derive(Clone, Copy, Debug, PartialEq, Eq)]
pub enum Ended {
    Open,
    Succeeded,
    Failed,
}

// By the byte of an entry or of a table of outcomes: 0 not run, 1 finished, any other failed.
impl From<u8> for Ended {
    ghost from_gives = { λ x e. e ≡ ended_of x };

    fn from(x: u8) -> Ended {
        match x {
            0 => Ended::Open,
            1 => Ended::Succeeded,
            _ => Ended::Failed,
        }
    }
}

// A process at one level: nothing to run; or whether it has begun, how it has ended, and bit n of next for each leaf n that may come
// next in it.
#[derive(Clone, Copy)]
pub struct Cell {
    pub empty: bool,
    pub begun: bool,
    pub ended: Ended,
    pub next: u64,
}

// A process by its levels: its forward run, its undo, and the undo of its undo.
#[derive(Clone, Copy)]
pub struct Cells {
    pub forward: Cell,
    pub undo: Cell,
    pub again: Cell,
}

// What the runner tells of the whole process.
#[derive(Drop)]
pub struct Told {
    pub ended: Ended,
    pub next: u64,
}

// Forms 3 to 7.
#[derive(Clone, Copy, Debug, PartialEq, Eq)]
pub enum Composite {
    Sequence,
    Parallel,
    Choice,
    Compensation,
    Handler,
}

// By the form's number; any other number is taken for a handler's.
impl From<u8> for Composite {
    ghost from_gives = { λ number form. composite_form form ≡ form_of number };

    fn from(number: u8) -> Composite {
        match number {
            3 => Composite::Sequence,
            4 => Composite::Parallel,
            5 => Composite::Choice,
            6 => Composite::Compensation,
            _ => Composite::Handler,
        }
    }
}
