// The action sets of a plan: the summary of each node from its parts' summaries, those of the composites in a lent work area, up to that of the whole process.
#![tactic(auto, using(plan::proofs::Runnable::few_nodes, plan::proofs::Runnable::some_nodes))]

ghost use Rattle.std.specs.Prelude.{◌≡◌, suc, ◌*◌, ◌≤◌, ◌<◌, length};
ghost use Rattle.nodes.specs.Nodes.{count, form};
ghost use Rattle.plan.specs.Tree.{process_at};
ghost use Rattle.summary.specs.Exact.{Exact};
ghost use Rattle.sets.specs.PlanSets.{leaf_set};
ghost use Rattle.sets.specs.Places.{place, most_places};
ghost use Rattle.sets.specs.Fill.{Holds, Placed, Filled, Stepped};
ghost use Rattle.area.specs.Area.{summary_size};

use outcomes::rows::Rows;
use plan::Process;
use summary::Summary;

// The set that leaf n adds where it finishes.
fn set_of(process: &Process<10>, n: usize) -> usize
    requires { n < count process.now.nodes.now }
    ensures { result ≡ leaf_set process.now.nodes.now n }
{
    let x = nodes::node_at(process.nodes, n);
    if x.form == 0 { 1 << x.left } else { 0 }
}

// The summary of leaf n.
fn leaf(process: &Process<10>, n: usize) -> Summary
    requires { (n < count process.now.nodes.now) × (form process.now.nodes.now n < 3) }
    ensures { Exact (leaf_set process.now.nodes.now) result (process_at process.now.types.now process.now.nodes.now n) }
{
    let kind = state::leaf_type(process.types, process.nodes, n);
    summary::leaf(set_of(process, n), kind != 2, kind != 1)
}

// Process, work area and places go together through the next three, and what these hold is no ghost field: `Holds` speaks of runs, and a ghost field is a proposition.

// The summary of part i of a node: a leaf's by its node, a composite's from its place.
fn part(process: &Process<10>, work: &[u8], places: &[u8; 63], i: usize) -> Summary
    requires { (i < count process.now.nodes.now) × Holds process.now.types.now process.now.nodes.now (suc i) work.now × Placed process.now.nodes.now (suc i) places.now }
    ensures { Exact (leaf_set process.now.nodes.now) result (process_at process.now.types.now process.now.nodes.now i) }
{
    if process.nodes[3 * i] < 3 {
        leaf(process, i)
    } else {
        area::load(work, usize::from(places[i]))
    }
}

// The summary of the composite n, where those of the composites before it are at their places.
fn summary_of(
    rows: &Rows,
    process: &Process<10>,
    work: &[u8],
    places: &[u8; 63],
    n: usize,
) -> Summary
    requires { (n < count process.now.nodes.now) × (3 ≤ form process.now.nodes.now n) × Holds process.now.types.now process.now.nodes.now n work.now × Placed process.now.nodes.now n places.now }
    ensures { Exact (leaf_set process.now.nodes.now) result (process_at process.now.types.now process.now.nodes.now n) }
{
    let x = nodes::node_at(process.nodes, n);
    summary::node(
        &rows.by,
        x.form,
        part(process, work, places, x.left),
        part(process, work, places, x.right),
    )
}

// Puts the summary of node i, where it is a composite, at its place k, and gives the next place.
fn step(
    rows: &Rows,
    process: &Process<10>,
    work: &mut [u8],
    places: &[u8; 63],
    i: usize,
    k: u8,
) -> u8
    requires { (i < count process.now.nodes.now) × (k ≡ place process.now.nodes.now i) × (summary_size * most_places ≤ length work.old) × Holds process.now.types.now process.now.nodes.now i work.old × Placed process.now.nodes.now i places.now }
    ensures { Stepped process.now.types.now process.now.nodes.now work.old i work.new result }
{
    if process.nodes[3 * i] < 3 {
        return k;
    }
    let s = summary_of(rows, process, work, places, i);
    area::store(work, usize::from(k), s);
    k + 1
}

// Puts the summary of every composite at its place in the work area, and gives that of the whole process.
pub fn fill(rows: &Rows, process: &Process<10>, work: &mut [u8]) -> Summary
    requires { summary_size * most_places ≤ length work.old }
    ensures { Filled process.now.types.now process.now.nodes.now work.old work.new result }
{
    let n = process.nodes.len() / 3;
    let mut places = [0u8; 63];
    let mut k = 0;
    for i in 0..n {
        places[i] = k;
        k = step(rows, process, work, &places, i, k);
    }
    part(process, work, &places, n - 1)
}
