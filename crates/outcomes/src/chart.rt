// The outcome chart as a constant table: document 01's 245 codes, a parallel's as document 02 (N6) amends them, for forms 3 to 7, left
// code 0 to 6, right code 0 to 6, the right changing fastest.
ghost use Rattle.std.specs.Prelude.{◌≡◌};
ghost use Rattle.outcomes.specs.Cells.{cell};

const CHART: [u8; 245] = [
    // Sequence, left 0.
    0, 7, 7, 7, 7, 7, 7,
    // Sequence, left 1.
    7, 1, 7, 3, 4, 7, 6,
    // Sequence, left 2.
    7, 7, 2, 7, 7, 5, 7,
    // Sequence, left 3.
    7, 7, 3, 7, 7, 6, 7,
    // Sequence, left 4.
    4, 7, 7, 7, 7, 7, 7,
    // Sequence, left 5.
    5, 7, 7, 7, 7, 7, 7,
    // Sequence, left 6.
    6, 7, 7, 7, 7, 7, 7,
    // Parallel, left 0.
    0, 7, 7, 7, 7, 7, 7,
    // Parallel, left 1.
    7, 1, 7, 7, 4, 7, 7,
    // Parallel, left 2.
    7, 7, 2, 3, 7, 5, 6,
    // Parallel, left 3.
    7, 7, 3, 3, 7, 6, 6,
    // Parallel, left 4.
    7, 4, 7, 7, 4, 7, 7,
    // Parallel, left 5.
    7, 7, 5, 6, 7, 5, 6,
    // Parallel, left 6.
    7, 7, 6, 6, 7, 6, 6,
    // Choice, left 0.
    0, 1, 2, 3, 4, 5, 6,
    // Choice, left 1.
    1, 7, 7, 7, 7, 7, 7,
    // Choice, left 2.
    2, 7, 7, 7, 7, 7, 7,
    // Choice, left 3.
    3, 7, 7, 7, 7, 7, 7,
    // Choice, left 4.
    4, 7, 7, 7, 7, 7, 7,
    // Choice, left 5.
    5, 7, 7, 7, 7, 7, 7,
    // Choice, left 6.
    6, 7, 7, 7, 7, 7, 7,
    // Compensation, left 0.
    0, 7, 7, 7, 7, 7, 7,
    // Compensation, left 1.
    1, 2, 7, 7, 7, 3, 7,
    // Compensation, left 2.
    7, 7, 7, 7, 7, 7, 7,
    // Compensation, left 3.
    7, 7, 7, 7, 7, 7, 7,
    // Compensation, left 4.
    4, 7, 7, 7, 7, 7, 7,
    // Compensation, left 5.
    5, 7, 7, 7, 7, 7, 7,
    // Compensation, left 6.
    6, 7, 7, 7, 7, 7, 7,
    // Handler, left 0.
    0, 7, 7, 7, 7, 7, 7,
    // Handler, left 1.
    1, 7, 7, 7, 7, 7, 7,
    // Handler, left 2.
    2, 7, 7, 7, 7, 7, 7,
    // Handler, left 3.
    3, 7, 7, 7, 7, 7, 7,
    // Handler, left 4.
    7, 7, 7, 7, 7, 7, 7,
    // Handler, left 5.
    7, 1, 2, 3, 4, 5, 6,
    // Handler, left 6.
    7, 1, 2, 3, 4, 5, 6,
];

// The code of a node of the form, from the codes of its sides: 7 where the two cannot occur, where these are no codes, or where it is no
// such form.
pub fn cell(form: u8, left: u8, right: u8) -> u8
    ensures { result ≡ cell form left right }
{
    if form < 3 || 7 < form || 6 < left || 6 < right {
        return 7;
    }
    CHART[usize::from(form - 3) * 49 + usize::from(left) * 7 + usize::from(right)]
}
