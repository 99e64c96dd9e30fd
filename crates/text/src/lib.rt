// A text as a value: what a program writes is put together here, and written once.
#![tactic(auto)]

ghost use Rattle.std.specs.Prelude.{◌≡◌, ◌∷◌};
ghost use Rattle.text.specs.Decimal.{decimal};
ghost use Rattle.text.specs.Lines.{line, numbered};

// The bytes that a text has room for.
pub const ROOM: usize = 640;

// The text is the first `len` bytes. There is no heap, so a text has a fixed room, and whoever hands out a whole text shows that it fits.
#[derive(Drop)]
pub struct Text {
    pub bytes: [u8; ROOM],
    pub len: usize,
}

impl Text {
    ghost use Rattle.text.specs.Text.{empty, pushed, appended};

    // The empty text.
    pub fn new() -> Text
        ensures { result ≡ empty }
    {
        Text {
            bytes: [0; ROOM],
            len: 0,
        }
    }

    // One byte more, where there is room for it.
    #[tactic(auto, unfolding(crate::specs::Text::pushed))]
    pub fn push(&mut self, b: u8)
        ensures { self.new ≡ pushed self.old b }
    {
        if self.len < ROOM {
            self.bytes[self.len] = b;
            self.len += 1;
        }
    }

    // The bytes of `s` more, as far as there is room for them.
    #[tactic(auto, using(crate::proofs::Texts::appended_next, crate::proofs::Texts::appended_end))]
    pub fn put(&mut self, s: &[u8])
        ensures { self.new ≡ appended self.old s.now }
    {
        for &b in s {
            self.push(b);
        }
    }

    // The digits of n more.
    #[tactic(auto, using(crate::proofs::Decimals::put_small, crate::proofs::Decimals::put_large))]
    pub fn put_decimal(&mut self, n: u64)
        ensures { self.new ≡ appended self.old (decimal n) }
    {
        if n >= 10 {
            self.put_decimal(n / 10);
        }
        self.push(b'0' + (n % 10) as u8);
    }

    // The bytes of `s` and a newline more.
    #[tactic(auto, using(crate::proofs::Ends::lined))]
    pub fn put_line(&mut self, s: &[u8])
        ensures { self.new ≡ appended self.old (line s.now) }
    {
        self.put(s);
        self.push(b'\n');
    }

    // A blank, a number and a newline more.
    #[tactic(auto, using(crate::proofs::Ends::lined, crate::proofs::Ends::appended_first))]
    pub fn end_line(&mut self, n: u64)
        ensures { self.new ≡ appended self.old (32 ∷ line (decimal n)) }
    {
        self.push(b' ');
        self.put_decimal(n);
        self.push(b'\n');
    }

    // A word and a number on a line more.
    #[tactic(auto, using(crate::proofs::Texts::appended_both))]
    pub fn put_numbered(&mut self, word: &[u8], n: u64)
        ensures { self.new ≡ appended self.old (numbered word.now n) }
    {
        self.put(word);
        self.end_line(n);
    }
}
