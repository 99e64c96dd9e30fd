// A node's summary: for each settled code above 0 the family of the action sets that the chart of three levels gives it. The summary of a leaf, and
// of a node from those of its two sides.
#![tactic(auto)]

ghost use Rattle.std.specs.Prelude.{◌≡◌, ◌<◌};
ghost use Rattle.outcomes.specs.Rows.{row_cell, cell_in3};
ghost use Rattle.summary.specs.Summary.{Only, LeafSummary};
ghost use Rattle.summary.specs.Node.{NodeSummary};
ghost use Rattle.summary.specs.Gathered.{Gathered};
ghost use Rattle.summary.specs.Marks.{Marked, Marks, MarkedAmong};

// The families of the eleven settled codes above 0. Code 0, not run, has the empty set alone; 5, 8 and 12 have no sets.
#[derive(Clone, Copy)]
pub struct Summary {
    pub s1: [u64; 16],
    pub s2: [u64; 16],
    pub s3: [u64; 16],
    pub s4: [u64; 16],
    pub s6: [u64; 16],
    pub s7: [u64; 16],
    pub s9: [u64; 16],
    pub s10: [u64; 16],
    pub s11: [u64; 16],
    pub s13: [u64; 16],
    pub s14: [u64; 16],
}

impl Summary {
    ghost use Rattle.summary.specs.Summary.{family_of, no_summary};
    ghost use Rattle.summary.specs.Marks.{Live};

    // The one without sets.
    pub fn empty() -> Self
        ensures { result ≡ no_summary }
    {
        let none = [0; 16];
        Summary {
            s1: none,
            s2: none,
            s3: none,
            s4: none,
            s6: none,
            s7: none,
            s9: none,
            s10: none,
            s11: none,
            s13: none,
            s14: none,
        }
    }

    // The family of a code.
    pub fn family_of(self, code: u8) -> [u64; 16]
        requires { code < 15 }
        ensures { result ≡ family_of self code }
    {
        match code {
            0 => [1, 0, 0, 0, 0, 0, 0, 0, 0, 0, 0, 0, 0, 0, 0, 0],
            1 => self.s1,
            2 => self.s2,
            3 => self.s3,
            4 => self.s4,
            6 => self.s6,
            7 => self.s7,
            9 => self.s9,
            10 => self.s10,
            11 => self.s11,
            13 => self.s13,
            14 => self.s14,
            _ => [0; 16],
        }
    }

    // A mark for each code that has sets.
    fn live(self) -> u64
        ensures { Live self result }
    {
        let mut m = 0;
        for code in 0..15 {
            if !family::is_empty(self.family_of(code)) {
                m |= 1 << code;
            }
        }
        m
    }
}

// The set alone where it may be so, and else no set.
fn only(set: usize, may: bool) -> [u64; 16]
    ensures { Only set may result }
{
    if may {
        family::single(set)
    } else {
        family::empty()
    }
}

// A leaf's summary: where it may finish, codes 1, 2 and 3 with its set alone; where it may fail, codes 9 and 10 with the empty set.
pub fn leaf(set: usize, finishes: bool, fails: bool) -> Summary
    ensures { LeafSummary set finishes fails result }
{
    let finished = only(set, finishes);
    let failed = only(0, fails);
    Summary {
        s1: finished,
        s2: finished,
        s3: finished,
        s9: failed,
        s10: failed,
        ..Summary::empty()
    }
}

// Marks the left code under each digit of its row that stands at a right code with sets. Where the rest of the row is 0 it is over.
fn mark(marks: &mut [u64; 16], row: u64, rights: u64, left: u8)
    requires { left < 15 }
    ensures { Marked marks.old row rights left marks.new }
{
    let mut rest = row;
    let mut on = rights;
    while rest != 0 {
        if on % 2 == 1 {
            marks[(rest % 16) as usize] |= 1 << left;
        }
        rest >>= 4;
        on >>= 1;
    }
}

// For each digit the left codes with sets in whose rows it stands at a right code with sets.
fn marks(table: &[u64; 75], form: u8, lefts: u64, rights: u64) -> [u64; 16]
    ensures { Marks table.now form lefts rights 15 result }
{
    let mut m = [0; 16];
    for left in 0..15 {
        if (lefts >> left) % 2 == 1 {
            mark(
                &mut m,
                outcomes::rows::row_in(table, form, left),
                rights,
                left,
            );
        }
    }
    m
}

// The sets of the right side under the right codes that give this code beside a left code, whose row it is.
fn gather(row: u64, code: u8, b: Summary) -> [u64; 16]
    requires { code < 15 }
    ensures { Gathered (row_cell row) code b result }
{
    let digit = u64::from(code) + 1;
    let mut g = family::empty();
    for right in 0..15 {
        if (row >> (4 * right)) % 16 == digit {
            family::add(&mut g, b.family_of(right));
        }
    }
    g
}

// The sides of a node of a form, with the marks of its left codes: for each digit those that have a part in the code that it stands for.
#[derive(Drop)]
struct Sides<'a> {
    table: &'a [u64; 75],
    form: u8,
    a: Summary,
    b: Summary,
    marks: [u64; 16],
    ghost among: { MarkedAmong (cell_in3 table.now form) a b marks },
}

impl Sides<'_> {
    ghost use Rattle.summary.specs.Node.{Under};

    // The sets of the node under a code: of each left code the sets, with those that are gathered beside it. The left codes that have no part in it are passed over.
    fn under(&self, code: u8) -> [u64; 16]
        requires { code < 15 }
        ensures { Under (cell_in3 self.now.table.now self.now.form) code self.now.a self.now.b result }
    {
        let lefts = self.marks[usize::from(code) + 1];
        let mut u = family::empty();
        if lefts == 0 {
            return u;
        }
        for left in 0..15 {
            if (lefts >> left) % 2 == 1 {
                let beside = gather(
                    outcomes::rows::row_in(self.table, self.form, left),
                    code,
                    self.b,
                );
                family::add(&mut u, product::product(self.a.family_of(left), beside));
            }
        }
        u
    }
}

// A node's summary, from its form and the summaries of its sides, by a lent table of rows.
pub fn node(table: &[u64; 75], form: u8, a: Summary, b: Summary) -> Summary
    ensures { NodeSummary (cell_in3 table.now form) a b result }
{
    let marks = marks(table, form, a.live(), b.live());
    let sides = Sides {
        table,
        form,
        a,
        b,
        marks,
    };
    Summary {
        s1: sides.under(1),
        s2: sides.under(2),
        s3: sides.under(3),
        s4: sides.under(4),
        s6: sides.under(6),
        s7: sides.under(7),
        s9: sides.under(9),
        s10: sides.under(10),
        s11: sides.under(11),
        s13: sides.under(13),
        s14: sides.under(14),
    }
}
