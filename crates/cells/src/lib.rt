// The cells of a process: where it stands after some entries of a run, from the cells of its sides alone. The specs of `runs` say what
// they are; here three levels, forward, undo and the undo of the undo, which is what a plan file needs.
#![tactic(auto)]

ghost use Rattle.std.specs.Prelude.{◌≡◌, ◌<◌};
ghost use Rattle.runs.specs.Cells.{given, leaf_cell, node_begun, node_ended, left_may, right_may, node_cell, join_cell, then_undo};
ghost use Rattle.runs.specs.ThreeLevels.{nothing, composite_form, leaf_three, form_three, node_three, told_three};

use runs::{Cell, Cells, Composite, Ended, Told};

// The types are those of `runs`, so that what would be their methods are functions here.

fn given(test: bool, leaves: u64) -> u64
    ensures { result ≡ given test leaves }
{
    if test { leaves } else { 0 }
}

fn node_begun(form: Composite, x: bool, y: bool) -> bool
    ensures { result ≡ node_begun (composite_form form) x y }
{
    match form {
        Composite::Sequence | Composite::Parallel | Composite::Choice => x || y,
        Composite::Compensation | Composite::Handler => x,
    }
}

fn node_ended(form: Composite, x: Ended, y: Ended, y_begun: bool) -> Ended
    ensures { result ≡ node_ended (composite_form form) x y y_begun }
{
    match (form, x) {
        (Composite::Sequence | Composite::Parallel, Ended::Succeeded) => y,
        (Composite::Parallel, Ended::Failed) => if y == Ended::Open { y } else { x },
        (Composite::Choice, _) => if y_begun { y } else { x },
        (Composite::Handler, Ended::Failed) => y,
        _ => x,
    }
}

fn left_may(form: Composite, y_begun: bool) -> bool
    ensures { result ≡ left_may (composite_form form) y_begun }
{
    match form {
        Composite::Sequence | Composite::Choice | Composite::Handler => !y_begun,
        Composite::Parallel | Composite::Compensation => true,
    }
}

fn right_may(form: Composite, x: Ended, x_begun: bool, x_over: bool) -> bool
    ensures { result ≡ right_may (composite_form form) x x_begun x_over }
{
    match form {
        Composite::Sequence => x == Ended::Succeeded,
        Composite::Parallel => true,
        Composite::Choice => !x_begun,
        Composite::Compensation => false,
        Composite::Handler => x_over,
    }
}

fn node_cell(form: Composite, x: Cell, y: Cell, x_next: u64, x_over: bool) -> Cell
    ensures { result ≡ node_cell (composite_form form) x y x_next x_over }
{
    let left = given(left_may(form, y.begun), x_next);
    let right = given(right_may(form, x.ended, x.begun, x_over), y.next);
    Cell {
        empty: false,
        begun: node_begun(form, x.begun, y.begun),
        ended: node_ended(form, x.ended, y.ended, y.begun),
        next: left | right,
    }
}

fn join_cell(form: Composite, x: Cell, y: Cell) -> Cell
    ensures { result ≡ join_cell (composite_form form) x y }
{
    if x.empty {
        y
    } else if y.empty {
        x
    } else {
        node_cell(form, x, y, x.next, false)
    }
}

// Where it failed, its undo has to end too, with success or without.
fn then_undo(x: Ended, undone: Ended) -> Ended
    ensures { result ≡ then_undo x undone }
{
    match (x, undone) {
        (Ended::Failed, Ended::Open) => Ended::Open,
        _ => x,
    }
}

// How the whole process, run with its undo and that with its own, has ended, and what may come next in it.
pub fn tell(a: Cells) -> Told
    ensures { result ≡ told_three a }
{
    let Cells {
        forward,
        undo,
        again,
    } = a;
    let undoing = given(!again.begun, undo.next) | given(undo.ended == Ended::Failed, again.next);
    Told {
        ended: then_undo(forward.ended, then_undo(undo.ended, again.ended)),
        next: given(!undo.begun, forward.next) | given(forward.ended == Ended::Failed, undoing),
    }
}

// Going forward. The left side of a handler runs with its undo.
fn node_forward(form: Composite, a: Cells, b: Cells) -> Cell
    ensures { result ≡ (form_three (composite_form form) a b).forward }
{
    match form {
        Composite::Handler => {
            let whole = tell(a);
            node_cell(
                form,
                a.forward,
                b.forward,
                whole.next,
                whole.ended == Ended::Failed,
            )
        }
        _ => node_cell(form, a.forward, b.forward, a.forward.next, false),
    }
}

// The undo. A compensation that succeeded is undone by its right side.
fn node_undo(form: Composite, a: Cells, b: Cells) -> Cell
    ensures { result ≡ (form_three (composite_form form) a b).undo }
{
    let succeeded = a.forward.ended == Ended::Succeeded;
    match form {
        Composite::Sequence | Composite::Choice => join_cell(Composite::Sequence, b.undo, a.undo),
        Composite::Parallel => join_cell(form, a.undo, b.undo),
        Composite::Compensation => if succeeded { b.forward } else { a.undo },
        Composite::Handler => if succeeded { a.undo } else { b.undo },
    }
}

// The undo of the undo: of a sequence, in the first order again.
fn node_again(form: Composite, a: Cells, b: Cells) -> Cell
    ensures { result ≡ (form_three (composite_form form) a b).again }
{
    let succeeded = a.forward.ended == Ended::Succeeded;
    match form {
        Composite::Sequence | Composite::Choice => join_cell(Composite::Sequence, a.again, b.again),
        Composite::Parallel => join_cell(form, a.again, b.again),
        Composite::Compensation => if succeeded { b.undo } else { a.again },
        Composite::Handler => if succeeded { a.again } else { b.again },
    }
}

// A node of a plan by the number of its form, 3 to 7, from the cells of its sides. Any other number is taken for a handler's.
pub fn node_cells(number: u8, a: Cells, b: Cells) -> Cells
    ensures { result ≡ node_three number a b }
{
    let form = Composite::from(number);
    Cells {
        forward: node_forward(form, a, b),
        undo: node_undo(form, a, b),
        again: node_again(form, a, b),
    }
}

// Nothing to run.
pub fn nothing() -> Cells
    ensures { result ≡ nothing }
{
    let none = Cell {
        empty: true,
        begun: false,
        ended: Ended::Succeeded,
        next: 0,
    };
    Cells {
        forward: none,
        undo: none,
        again: none,
    }
}

// A leaf going forward.
fn leaf_cell(n: usize, outcome: Ended) -> Cell
    requires { n < 64 }
    ensures { result ≡ leaf_cell n outcome }
{
    let open = outcome == Ended::Open;
    Cell {
        empty: false,
        begun: !open,
        ended: outcome,
        next: given(open, 1 << n),
    }
}

// A leaf by its node number and its outcome. Where the number is not below 64, as every node's of a plan is: nothing to run.
pub fn leaf_cells(n: usize, outcome: Ended) -> Cells
    ensures { result ≡ leaf_three n outcome }
{
    if 64 <= n {
        return nothing();
    }
    Cells {
        forward: leaf_cell(n, outcome),
        ..nothing()
    }
}
