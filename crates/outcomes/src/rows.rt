// The table of three levels, which the verdict is over, as rows of hexadecimal digits: for forms 3 to 7 and left codes 0 to 14 one number, whose digit r, counted from the
// right, is one more than the code of a node whose right side has the code r, and 0 where the two cannot occur, or what they give is not settled.
ghost use Rattle.std.specs.Prelude.{◌≡◌};
ghost use Rattle.outcomes.specs.Rows.{rows, row_in};

const ROWS: [u64; 75] = [
    // Sequence, left 0 to 14.
    0x1,
    0xfe0000087000020,
    0xa000000300,
    0xcb0000054000,
    0xc000000500,
    0x0,
    0xfe0000087000,
    0xf000000800,
    0x0,
    0xa,
    0xb,
    0xc,
    0x0,
    0xe,
    0xf,
    // Parallel, left 0 to 14.
    0x1,
    0x20,
    0xa000000300,
    0xfe0cb0087054000,
    0xff0cc0088055000,
    0x0,
    0xfe0fe0087087000,
    0xff0ff0088088000,
    0x0,
    0xa000000a00,
    0xfe0cb00fe0cb000,
    0xff0cc00ff0cc000,
    0x0,
    0xfe0fe00fe0fe000,
    0xff0ff00ff0ff000,
    // Choice, left 0 to 14.
    0xfe0cba087054321,
    0x2,
    0x3,
    0x4,
    0x5,
    0x0,
    0x7,
    0x8,
    0x0,
    0xa,
    0xb,
    0xc,
    0x0,
    0xe,
    0xf,
    // Compensation, left 0 to 14.
    0x1,
    0x80007005000432,
    0x0,
    0x0,
    0x0,
    0x0,
    0x0,
    0x0,
    0x0,
    0xa,
    0xb,
    0xc,
    0x0,
    0xe,
    0xf,
    // Handler, left 0 to 14.
    0x1,
    0x2,
    0x3,
    0x4,
    0x5,
    0x0,
    0x7,
    0x8,
    0x0,
    0xfe0cba087054320,
    0x0,
    0x0,
    0x0,
    0xfe0cba087054320,
    0xfe0cba087054320,
];

// The rows, for a caller that looks up many.
#[derive(Clone, Copy)]
pub struct Rows {
    pub by: [u64; 75],
    ghost whole: { by ≡ rows },
}

impl Rows {
    pub fn new() -> Self
        ensures { result.by ≡ rows }
    {
        Rows { by: ROWS }
    }
}

// The row that a lent table has for a form and a left code; empty where it is no such form, or this is no code.
#[tactic(auto, unfolding(crate::specs::Rows::row_in))]
pub fn row_in(table: &[u64; 75], form: u8, left: u8) -> u64
    ensures { result ≡ row_in table.now form left }
{
    if form < 3 || 7 < form || 14 < left {
        return 0;
    }
    table[usize::from(form - 3) * 15 + usize::from(left)]
}
