// The fewest failed entries of the complete runs of a plan that have given outcomes and leave exactly a set: by a fold over the codes of three levels,
// and for the actions of the set by trying leaves of theirs as ones that must finish, the action with the fewest such leaves first. Sets have up to 24 actions.
#![tactic(auto, using(plan::proofs::Runnable::few_nodes, plan::proofs::Runnable::some_nodes))]

ghost use Rattle.std.specs.Prelude.{◌≡◌, true, not, cond, ◌&&◌, ◌+◌, ◌^◌, ◌≤◌, ◌<◌, min, eqb, ltb, length, set};
ghost use Rattle.outcomes.specs.Rows.{code_of_digit, row_cell};
ghost use Rattle.outcomes.specs.ThreeLevels.{cell3};
ghost use Rattle.nodes.specs.Nodes.{count, form};
ghost use Rattle.plan.specs.Tree.{leaf_of, process_of};
ghost use Rattle.fewest.specs.Costs.{unreached, given};
ghost use Rattle.fewest.specs.Least.{LeastBelow};
ghost use Rattle.fewest.specs.Leaving.{most_searched, Leaving, outcome_at};
ghost use Rattle.fewest.specs.Search.{welcome, wish_of, wishes, is_leaf_of, finished, due, candidate, count_where, is_left, leaves_left, searched};

use outcomes::rows::Rows;
use plan::Process;

// More than any run's failed entries. A number, so that the least of several costs is their `min`.
pub const NONE: u8 = 64;

fn given(may: bool, k: u8) -> u8
    ensures { result ≡ given may k }
{
    if may { k } else { NONE }
}

// Of a node, for each code the fewest failed entries of its runs under it.
#[derive(Clone, Copy)]
pub struct Costs {
    pub by: [u8; 15],
}

impl Costs {
    ghost use Rattle.fewest.specs.Costs.{leaf_costs, no_costs, with_sum, row_costs, node_costs, final_cost};

    fn none() -> Self
        ensures { result ≡ no_costs }
    {
        Costs { by: [NONE; 15] }
    }

    // A leaf's, by what it may do.
    fn leaf(absent: bool, finishing: bool, failing: bool) -> Self
        ensures { result ≡ leaf_costs absent finishing failing }
    {
        let free = given(absent, 0);
        let finished = given(finishing, 0);
        let failed = given(failing, 1);
        Costs {
            by: [
                free, finished, finished, finished, NONE, NONE, NONE, NONE, NONE, failed, failed,
                NONE, NONE, NONE, NONE,
            ],
        }
    }

    // One sum more under the code that a digit stands for, where it stands for one.
    fn add_sum(&mut self, digit: u8, left: u8, right: u8)
        requires { digit < 16 }
        ensures { self.new ≡ with_sum (code_of_digit digit) (left + right) self.old }
    {
        if digit != 0 {
            let at = usize::from(digit - 1);
            // In 16 bits no sum is too large, which costs less than to stop it at 255.
            let sum = u16::from(left) + u16::from(right);
            self.by[at] = sum.min(u16::from(self.by[at])) as u8;
        }
    }

    // The cells of a left code, whose cost is k, as far as their row goes; none where nothing has the code.
    fn add_row(&mut self, row: u64, k: u8, right: &Costs)
        ensures { self.new ≡ cond (ltb k unreached) (row_costs (row_cell row) k right.now 15 self.old) self.old }
    {
        if NONE <= k {
            return;
        }
        let mut rest = row;
        for r in 0..15 {
            if rest == 0 {
                return;
            }
            self.add_sum((rest % 16) as u8, k, right.by[r]);
            rest >>= 4;
        }
    }

    // A composite's, by the rows of its form.
    fn node(rows: &Rows, form: u8, x: Costs, y: Costs) -> Self
        ensures { result ≡ node_costs (cell3 form) x y 15 }
    {
        let mut costs = Costs::none();
        for l in 0..15u8 {
            let row = outcomes::rows::row_in(&rows.by, form, l);
            costs.add_row(row, x.by[usize::from(l)], &y);
        }
        costs
    }

    // The least of the costs under the codes of complete runs.
    fn final_cost(self) -> u8
        ensures { result ≡ final_cost self }
    {
        let by = self.by;
        by[1].min(by[9].min(by[13].min(by[14])))
    }
}

// Whether node n is a leaf of the action a.
fn is_leaf_of(nodes: &[u8], a: usize, n: usize) -> bool
    requires { n < count nodes.now }
    ensures { result ≡ is_leaf_of nodes.now a n }
{
    let x = nodes::node_at(nodes, n);
    x.form == 0 && x.left == a
}

// The table in which leaf n must have finished.
fn with_finished(table: &[u8; 63], n: usize) -> [u8; 63]
    requires { n < 63 }
    ensures { result ≡ set table.now n 1 }
{
    let mut t = *table;
    t[n] = 1;
    t
}

// An action to be tried, and how many leaves of it are left.
#[derive(Clone, Copy)]
pub struct Choice {
    pub action: usize,
    pub leaves: usize,
}

// What is searched: a plan, and a set of its first `actions` actions. The rows of the chart are lent. Of a table's leaf: 0 it is free, 1 it must have finished, 2 it must have failed.
#[derive(Clone, Copy)]
pub struct Search<'a> {
    pub rows: &'a Rows,
    pub process: Process<'a, 24>,
    pub actions: usize,
    pub set: usize,
    ghost few: { actions ≤ most_searched },
    ghost within: { set < 2 ^ actions },
}

impl<'a> Search<'a> {
    ghost use Rattle.fewest.specs.Costs.{node_costs, costs_of, fewest_of};
    ghost use Rattle.fewest.specs.Search.{Chosen};

    // Whether leaf n may finish without leaving an action outside the set.
    #[tactic(auto, using(plan::proofs::Runnable::few_nodes, state::proofs::Sides::left_low))]
    fn is_welcome(&self, n: usize) -> bool
        requires { n < count self.now.process.nodes.now }
        ensures { result ≡ welcome self.now.process.nodes.now self.now.set n }
    {
        let x = nodes::node_at(self.process.nodes, n);
        x.form != 0 || (self.set >> x.left) % 2 == 1
    }

    // The costs of leaf n, for which the table has this outcome.
    fn leaf_at(&self, outcome: u8, n: usize) -> Costs
        requires { (n < count self.now.process.nodes.now) × (form self.now.process.nodes.now n < 3) }
        ensures { result ≡ costs_of (λ i. wish_of (welcome self.now.process.nodes.now self.now.set n) outcome) (leaf_of self.now.process.types.now self.now.process.nodes.now n) }
    {
        let kind = state::leaf_type(self.process.types, self.process.nodes, n);
        let finishing = kind != 2 && outcome < 2 && self.is_welcome(n);
        let failing = kind != 1 && outcome != 1;
        Costs::leaf(outcome == 0, finishing, failing)
    }

    // The costs of node i: a leaf's, or a composite's from those of its parts.
    fn costs_at(&self, outcome: u8, i: usize, x: Costs, y: Costs) -> Costs
        requires { i < count self.now.process.nodes.now }
        ensures { result ≡ cond (ltb (form self.now.process.nodes.now i) 3) (costs_of (λ n. wish_of (welcome self.now.process.nodes.now self.now.set i) outcome) (leaf_of self.now.process.types.now self.now.process.nodes.now i)) (node_costs (cell3 (form self.now.process.nodes.now i)) x y 15) }
    {
        let form = self.process.nodes[3 * i];
        if form < 3 {
            self.leaf_at(outcome, i)
        } else {
            Costs::node(self.rows, form, x, y)
        }
    }

    #[tactic(auto, using(plan::proofs::Runnable::few_nodes, plan::proofs::Runnable::some_nodes, state::proofs::Sides::left_low, state::proofs::Sides::right_low))]
    // The fewest failed entries of a complete run that has the outcomes of the table and finishes no action outside the set.
    fn fold(&self, table: &[u8; 63]) -> u8
        ensures { result ≡ fewest_of (wishes self.now.process.nodes.now self.now.set table.now) (process_of self.now.process.types.now self.now.process.nodes.now) }
    {
        let nodes = self.process.nodes;
        let n = nodes.len() / 3;
        let mut costs = [Costs::none(); 63];
        for i in 0..n {
            let x = nodes::node_at(nodes, i);
            costs[i] = self.costs_at(table[i], i, costs[x.left], costs[x.right]);
        }
        costs[n - 1].final_cost()
    }

    // Whether by the table node n is a leaf of the action a that has finished.
    fn has_finished(&self, table: &[u8; 63], a: usize, n: usize) -> bool
        requires { n < count self.now.process.nodes.now }
        ensures { result ≡ (is_leaf_of self.now.process.nodes.now a n && eqb (outcome_at table.now n) 1) }
    {
        is_leaf_of(self.process.nodes, a, n) && table[n] == 1
    }

    // Whether by the table the action a has finished at some leaf.
    fn is_finished(&self, table: &[u8; 63], a: usize) -> bool
        ensures { result ≡ finished self.now.process.nodes.now table.now a }
    {
        (0..self.process.nodes.len() / 3).any(|n| self.has_finished(table, a, n))
    }

    // Whether the action a is one of the set's, and by the table has finished at no leaf.
    fn is_due(&self, table: &[u8; 63], a: usize) -> bool
        requires { a < most_searched }
        ensures { result ≡ due self.now.process.nodes.now self.now.set table.now a }
    {
        (self.set >> a) % 2 == 1 && !self.is_finished(table, a)
    }

    // Whether node n is a leaf of the action a that may be one that must finish.
    fn is_candidate(&self, table: &[u8; 63], a: usize, n: usize) -> bool
        requires { n < count self.now.process.nodes.now }
        ensures { result ≡ candidate self.now.process.nodes.now table.now a n }
    {
        is_leaf_of(self.process.nodes, a, n) && table[n] < 2
    }

    // How many candidates the action a has.
    fn candidates(&self, table: &[u8; 63], a: usize) -> usize
        ensures { result ≡ count_where (count self.now.process.nodes.now) (candidate self.now.process.nodes.now table.now a) }
    {
        (0..self.process.nodes.len() / 3)
            .filter(|&n| self.is_candidate(table, a, n))
            .count()
    }

    // Whether node n is a candidate of the action a that the fold does not rule out.
    fn is_left(&self, table: &[u8; 63], a: usize, best: u8, n: usize) -> bool
        requires { n < count self.now.process.nodes.now }
        ensures { result ≡ is_left self.now.process.types.now self.now.process.nodes.now self.now.set table.now a best n }
    {
        self.is_candidate(table, a, n) && self.fold(&with_finished(table, n)) < best
    }

    // How many of these there are.
    fn leaves_left(&self, table: &[u8; 63], a: usize, best: u8) -> usize
        ensures { result ≡ leaves_left self.now.process.types.now self.now.process.nodes.now self.now.set table.now a best }
    {
        (0..self.process.nodes.len() / 3)
            .filter(|&n| self.is_left(table, a, best, n))
            .count()
    }

    // The action to be tried next: the first that leaves no choice, for which no fold is needed; else that with the fewest leaves left, the first where several have as many.
    // None where no action is due.
    fn choose(&self, table: &[u8; 63], best: u8) -> Option<Choice>
        ensures { Chosen self.now.actions self.now.process.types.now self.now.process.nodes.now self.now.set table.now best result }
    {
        let single = (0..self.actions).find(|&a| self.is_due(table, a)
            && self.candidates(table, a) < 2);
        if let Some(action) = single {
            return Some(Choice { action, leaves: 1 });
        }
        let mut choice: Option<Choice> = None;
        for action in 0..self.actions {
            if self.is_due(table, action) {
                let leaves = self.leaves_left(table, action, best);
                match choice {
                    Some(c) if c.leaves <= leaves => {}
                    _ => choice = Some(Choice { action, leaves }),
                }
            }
        }
        choice
    }

    // The fewest failed entries of a run in which each action of the set finishes, where it is below `best`; else `best`. `other`: this table is one of several, so that the fold may
    // rule it out.
    fn search(&self, table: &[u8; 63], other: bool, best: u8) -> u8
        requires { best ≤ unreached }
        ensures { result ≡ min best (searched self.now.process.types.now self.now.process.nodes.now self.now.set self.now.actions 0 table.now) }
    {
        if other && best <= self.fold(table) {
            return best;
        }
        let Some(choice) = self.choose(table, best) else {
            return self.fold(table).min(best);
        };
        if choice.leaves == 0 {
            return best;
        }
        let several = 1 < self.candidates(table, choice.action);
        let mut found = best;
        for n in 0..self.process.nodes.len() / 3 {
            if self.is_candidate(table, choice.action, n) {
                found = self.search(&with_finished(table, n), several, found);
            }
        }
        found
    }

    // The fewest failed entries of a complete run of the plan that has the outcomes of the table and leaves exactly the set, where there is one with fewer than `most`; else `most`.
    pub fn fewest(&self, table: [u8; 63], most: u8) -> u8
        requires { most ≤ unreached }
        ensures { LeastBelow most (Leaving self.now.process.types.now self.now.process.nodes.now self.now.set table) result }
    {
        self.search(&table, false, most)
    }
}
