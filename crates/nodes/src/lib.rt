// Kind 3: the nodes of a plan file.
#![tactic(auto)]

ghost use Rattle.std.specs.Prelude.{◌≡◌, cond, ◌≤◌, ◌<◌, max, ltb, length, get_or};
ghost use Rattle.nodes.specs.Nodes.{count, Descending};
ghost use Rattle.nodes.specs.Node.{node_at};
ghost use Rattle.nodes.specs.NodeTests.{node_ok, forms_ok, naming, times_named, named_ok, deeper, nested_ok, checked};

// A node: its form, and the two numbers beside it. The form is the file's byte, whatever it is: the first check is of just that.
#[derive(Clone, Copy)]
pub struct Node {
    pub form: u8,
    pub left: usize,
    pub right: usize,
}

// The first check of a node body that fails: the forms, the names, the levels of undos.
#[derive(Clone, Copy, Debug, PartialEq, Eq)]
pub enum Fault {
    Form,
    Named,
    Nested,
}

impl Fault {
    ghost use Rattle.nodes.specs.NodeTests.{number};

    // Document 01's number for it.
    pub fn number(self) -> u8
        ensures { result ≡ number self }
    {
        match self {
            Fault::Form => 6,
            Fault::Named => 7,
            Fault::Nested => 8,
        }
    }
}

// Node i of a node list.
pub fn node_at(b: &[u8], i: usize) -> Node
    requires { i < count b.now }
    ensures { result ≡ node_at b.now i }
{
    Node {
        form: b[3 * i],
        left: usize::from(b[3 * i + 1]),
        right: usize::from(b[3 * i + 2]),
    }
}

// Whether node i, which is `x`, keeps the rule of its form.
fn node_ok(actions: usize, i: usize, x: Node) -> bool
    ensures { result ≡ node_ok actions i x.form x.left x.right }
{
    match x.form {
        0 => x.left < actions && x.right == 0,
        1 | 2 => x.left == 0 && x.right == 0,
        3..=7 => x.left < i && x.right < i,
        _ => false,
    }
}

// Whether each node keeps the rule of its form.
fn forms_ok(b: &[u8], actions: usize) -> bool
    ensures { result ≡ forms_ok actions b.now }
{
    (0..b.len() / 3).all(|i| node_ok(actions, i, node_at(b, i)))
}

// How often a node names `j`.
fn naming_of(j: usize, x: Node) -> usize
    ensures { result ≡ naming j x.form x.left x.right }
{
    if x.form < 3 {
        return 0;
    }
    usize::from(x.left == j) + usize::from(x.right == j)
}

// How often node `j` is named: by the nodes after it, since a node that has passed the first check names smaller numbers alone.
fn times_named(b: &[u8], j: usize) -> usize
    requires { (j < count b.now) × Descending b.now }
    ensures { result ≡ times_named b.now j }
{
    (j + 1..b.len() / 3)
        .map(|i| naming_of(j, node_at(b, i)))
        .sum()
}

// Whether each node but the last is named exactly once.
fn named_ok(b: &[u8]) -> bool
    requires { Descending b.now }
    ensures { result ≡ named_ok b.now }
{
    (0..(b.len() / 3).saturating_sub(1)).all(|j| times_named(b, j) == 1)
}

// The most levels of undos that a plan has, by document 02. The depths that are kept are at most that, so that one more does not wrap.
const UNDOS: u8 = 2;

// The depth of a composite of the form `f`, from its parts' depths.
fn deeper_of(f: u8, l: u8, r: u8) -> u8
    requires { r < 255 }
    ensures { result ≡ deeper f l r }
{
    if f == 6 { l.max(r + 1) } else { l.max(r) }
}

// The depth of the node, by the table of the nodes before it.
fn depth_of(depths: &[u8; 63], x: Node) -> u8
    requires { 3 ≤ x.form → (x.left < 63) × (x.right < 63) × (get_or depths.now x.right 0 < 255) }
    ensures { result ≡ cond (ltb x.form 3) 0 (deeper x.form (get_or depths.now x.left 0) (get_or depths.now x.right 0)) }
{
    if x.form < 3 {
        return 0;
    }
    deeper_of(x.form, depths[x.left], depths[x.right])
}

// Whether no node is deeper than a plan may be.
fn nested_ok(b: &[u8]) -> bool
    requires { (length b.now ≤ 189) × Descending b.now }
    ensures { result ≡ nested_ok b.now }
{
    let mut depths = [0u8; 63];
    for i in 0..b.len() / 3 {
        let d = depth_of(&depths, node_at(b, i));
        if UNDOS < d {
            return false;
        }
        depths[i] = d;
    }
    true
}

// The checks of the nodes, in document 01's order.
pub fn check(b: &[u8], actions: usize) -> Result<(), Fault>
    requires { length b.now ≤ 189 }
    ensures { result ≡ checked actions b.now }
{
    if !forms_ok(b, actions) {
        return Err(Fault::Form);
    }
    if !named_ok(b) {
        return Err(Fault::Named);
    }
    if !nested_ok(b) {
        return Err(Fault::Nested);
    }
    Ok(())
}
