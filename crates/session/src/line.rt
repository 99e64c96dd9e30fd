// A line of input, read byte by byte: `given` answers the entry, or the timed entry, whose text the bytes so far are, if they are one's.
ghost use Rattle.std.specs.Prelude.{◌≡◌};

use state::Entry;

// A number as far as its digits have come: `Wrong` where they are the text of no number up to 4294967295.
#[derive(Clone, Copy, Debug, PartialEq, Eq)]
pub enum Number {
    Unwritten,
    Is(u32),
    Wrong,
}

// The parts of a line, each after a blank.
#[derive(Clone, Copy, Debug, PartialEq, Eq)]
pub enum Part {
    Leaf,
    Outcome,
    Minute,
}

// By the number of blanks that have parted the line: 0 for the leaf, 1 for the outcome, and any other for the minute, of which a blank is one more
// byte. So every byte is the number of a part.
impl From<u8> for Part {
    ghost use Rattle.session.specs.Line.{part_of};

    ghost from_gives = { λ n p. p ≡ part_of n };

    fn from(n: u8) -> Part {
        match n {
            0 => Part::Leaf,
            1 => Part::Outcome,
            _ => Part::Minute,
        }
    }
}

// A line as far as its bytes have come: its numbers, and the part that it has come to.
#[derive(Clone, Copy, Debug, PartialEq, Eq)]
pub struct Line {
    pub leaf: Number,
    pub outcome: Number,
    pub minute: Number,
    pub part: Part,
}

// What a line gives.
#[derive(Drop)]
pub enum Given {
    Entry(Entry),
    Timed { entry: Entry, minute: u32 },
}

impl Number {
    ghost use Rattle.session.specs.Line.{digit_after, value_of, byte_of};

    // The number after one byte more.
    fn after(self, b: u8) -> Number
        ensures { result ≡ digit_after self b }
    {
        if !b.is_ascii_digit() {
            return Number::Wrong;
        }
        let digit = u32::from(b - b'0');
        match self {
            Number::Unwritten => Number::Is(digit),
            Number::Is(0) | Number::Wrong => Number::Wrong,
            Number::Is(n) => n
                .checked_mul(10)
                .and_then(|tens| tens.checked_add(digit))
                .map_or(Number::Wrong, Number::Is),
        }
    }

    // The number that all the digits are the text of.
    fn value(self) -> Option<u32>
        ensures { result ≡ value_of self }
    {
        match self {
            Number::Is(n) => Some(n),
            Number::Unwritten | Number::Wrong => None,
        }
    }

    // The same where it fits a byte.
    fn byte(self) -> Option<u8>
        ensures { result ≡ byte_of self }
    {
        u8::try_from(self.value()?).ok()
    }
}

impl Line {
    ghost use Rattle.session.specs.Line.{fresh_line, line_after, begun, entry_in};

    // A line of which no byte has come.
    pub fn new() -> Line
        ensures { result ≡ fresh_line }
    {
        Line {
            leaf: Number::Unwritten,
            outcome: Number::Unwritten,
            minute: Number::Unwritten,
            part: Part::Leaf,
        }
    }

    // One byte more, which is no newline.
    pub fn push(&mut self, b: u8)
        ensures { self.new ≡ line_after self.old b }
    {
        match (self.part, b) {
            (Part::Leaf, b' ') => self.part = Part::Outcome,
            (Part::Leaf, _) => self.leaf = self.leaf.after(b),
            (Part::Outcome, b' ') => self.part = Part::Minute,
            (Part::Outcome, _) => self.outcome = self.outcome.after(b),
            (Part::Minute, _) => self.minute = self.minute.after(b),
        }
    }

    // Whether a byte of the line has come.
    pub fn has_begun(&self) -> bool
        ensures { result ≡ begun self.now }
    {
        self.leaf != Number::Unwritten || self.part != Part::Leaf
    }

    // What the line gives, where all its bytes have come.
    pub fn given(&self) -> Option<Given>
        ensures { result ≡ entry_in self.now }
    {
        let entry = Entry {
            leaf: self.leaf.byte()?,
            outcome: self.outcome.byte()?,
        };
        match self.part {
            Part::Leaf | Part::Outcome => Some(Given::Entry(entry)),
            Part::Minute => Some(Given::Timed {
                entry,
                minute: self.minute.value()?,
            }),
        }
    }
}
