// The state of a job after its record: the outcomes of the leaves, and what the cells tell by them.
#![tactic(auto)]

ghost use Rattle.std.specs.Prelude.{◌≡◌, ◌<◌, ltb, length, cond};
ghost use Rattle.runs.specs.Cells.{ended_of};
ghost use Rattle.runs.specs.ThreeLevels.{leaf_three, node_three};
ghost use Rattle.nodes.specs.Nodes.{count, FormRules};
ghost use Rattle.state.specs.State.{told_by, leaf_type, type_permits, leaf_permits, may_come, state_after};

use plan::Process;
use runs::{Cells, Ended, Told};

// An entry of a run: the leaf's node number, then 1 (finished) or 2 (failed). They stay numbers, as a record holds them: any byte may stand there.
#[derive(Clone, Copy, Debug, PartialEq, Eq)]
pub struct Entry {
    pub leaf: u8,
    pub outcome: u8,
}

// The cells of node i, of the form `form`: a leaf's by its outcome, a composite's from those of its parts.
fn cell_of(i: usize, form: u8, outcome: u8, x: Cells, y: Cells) -> Cells
    ensures { result ≡ cond (ltb form 3) (leaf_three i (ended_of outcome)) (node_three form x y) }
{
    if form < 3 {
        cells::leaf_cells(i, Ended::from(outcome))
    } else {
        cells::node_cells(form, x, y)
    }
}

// What the whole process tells.
#[tactic(auto, using(plan::proofs::Runnable::few_nodes, plan::proofs::Runnable::some_nodes, crate::proofs::Sides::left_low, crate::proofs::Sides::right_low))]
pub fn told_by(process: &Process<10>, table: &[u8; 63]) -> Told
    ensures { result ≡ told_by process.now.nodes.now table.now }
{
    let nodes = process.nodes;
    let n = nodes.len() / 3;
    let mut cells = [cells::nothing(); 63];
    for i in 0..n {
        let x = nodes::node_at(nodes, i);
        cells[i] = cell_of(i, x.form, table[i], cells[x.left], cells[x.right]);
    }
    cells::tell(cells[n - 1])
}

// A leaf of type 2 does not finish, one of type 1 does not fail.
fn type_permits(kind: u8, outcome: u8) -> bool
    ensures { result ≡ type_permits kind outcome }
{
    match outcome {
        1 => kind != 2,
        2 => kind != 1,
        _ => false,
    }
}

// The type of leaf n. By slices, of which it asks less than a process keeps.
pub fn leaf_type(types: &[u8], nodes: &[u8], n: usize) -> u8
    requires { FormRules (length types.now) nodes.now × (n < count nodes.now) }
    ensures { result ≡ leaf_type types.now nodes.now n }
{
    let x = nodes::node_at(nodes, n);
    if x.form == 0 { types[x.left] } else { x.form }
}

// Whether node n is a leaf whose type permits the outcome.
fn leaf_permits(process: &Process<10>, n: usize, outcome: u8) -> bool
    ensures { result ≡ leaf_permits process.now.types.now process.now.nodes.now n outcome }
{
    n < process.nodes.len() / 3
        && process.nodes[3 * n] < 3
        && type_permits(leaf_type(process.types, process.nodes, n), outcome)
}

// Whether the entry may come now.
pub fn may_come(process: &Process<10>, table: &[u8; 63], leaf: u8, outcome: u8) -> bool
    ensures { result ≡ may_come process.now.types.now process.now.nodes.now table.now leaf outcome }
{
    let n = usize::from(leaf);
    leaf_permits(process, n, outcome) && (told_by(process, table).next >> n) % 2 == 1
}

// The table after the first `taken` entries of a record, where each of them might come where it stands; else the table before the first that might not.
pub fn state_after(
    process: &Process<10>,
    entries: &[u8; 126],
    taken: usize,
) -> Result<[u8; 63], [u8; 63]>
    requires { taken < 63 }
    ensures { result ≡ state_after process.now.types.now process.now.nodes.now entries.now taken }
{
    let mut table = [0u8; 63];
    for i in 0..taken {
        let leaf = entries[2 * i];
        let outcome = entries[2 * i + 1];
        if !may_come(process, &table, leaf, outcome) {
            return Err(table);
        }
        table[usize::from(leaf)] = outcome;
    }
    Ok(table)
}
