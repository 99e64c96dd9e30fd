// The run that a verdict shows beside a set: of the complete runs that leave it one with the fewest failed entries, and of these the one whose record bytes come first. It is built
// entry by entry from the runner's own table of outcomes.
#![tactic(auto, using(plan::proofs::Runnable::few_nodes, plan::proofs::Runnable::some_nodes))]

ghost use Rattle.std.specs.Prelude.{◌≡◌, ◌^◌, ◌<◌};
ghost use Rattle.nodes.specs.Nodes.{count};
ghost use Rattle.plan.specs.PlanFile.{most_actions};
ghost use Rattle.state.specs.State.{fresh_table};
ghost use Rattle.fewest.specs.Costs.{unreached};
ghost use Rattle.plainest.specs.Shown.{fewest_left, LeftBy, fits, outcome_for, entry_from, plainest_bytes};

use fewest::Search;
use job::Job;
use outcomes::rows::Rows;
use plan::Process;
use state::Entry;

// A set of a plan, and the fewest failed entries with which a run leaves it.
#[derive(Clone, Copy)]
struct Sought<'a> {
    search: Search<'a>,
    fewest: u8,
    ghost all: { search.actions ≡ most_actions },
    ghost some: { fewest < unreached },
}

impl<'a> Sought<'a> {
    // Of a set that some complete run leaves.
    fn new(rows: &'a Rows, process: &Process<'a, 10>, set: usize) -> Self
        requires { (set < 2 ^ most_actions) × LeftBy process.now.types.now process.now.nodes.now set }
        ensures types { result.search.process.types.now ≡ process.now.types.now }
        ensures nodes { result.search.process.nodes.now ≡ process.now.nodes.now }
        ensures set { result.search.set ≡ set }
        ensures fewest { result.fewest ≡ fewest_left process.now.types.now process.now.nodes.now set fresh_table }
    {
        let search = Search {
            rows,
            process: process.within(),
            actions: usize::from(Job::MOST_ACTIONS),
            set,
        };
        Sought {
            search,
            fewest: search.fewest([0; 63], fewest::NONE),
        }
    }

    // Whether with the outcome o of leaf n there is still a run that leaves the set with as few failed entries.
    fn fits(&self, table: &[u8; 63], n: usize, o: u8) -> bool
        requires { n < 63 }
        ensures { result ≡ fits self.now.search.process.types.now self.now.search.process.nodes.now self.now.search.set self.now.fewest table.now n o }
    {
        let mut t = *table;
        t[n] = o;
        self.search.fewest(t, self.fewest + 1) == self.fewest
    }

    // The outcome with which leaf n is the next entry, 1 before 2; none where it is no next leaf, or fits with neither.
    fn outcome_for(&self, table: &[u8; 63], next: u64, n: usize) -> Option<u8>
        requires { n < 63 }
        ensures { result ≡ outcome_for self.now.search.process.types.now self.now.search.process.nodes.now self.now.search.set self.now.fewest table.now next n }
    {
        if (next >> n) % 2 != 1 {
            return None;
        }
        (1..3u8).find(|&o| self.fits(table, n, o))
    }

    // The next entry: of the leaves that may come next the first that has an outcome.
    fn entry(&self, table: &[u8; 63], next: u64) -> Option<Entry>
        ensures { result ≡ entry_from self.now.search.process.types.now self.now.search.process.nodes.now self.now.search.set self.now.fewest table.now next 0 (count self.now.search.process.nodes.now) }
    {
        for n in 0..self.search.process.nodes.len() / 3 {
            if let Some(outcome) = self.outcome_for(table, next, n) {
                return Some(Entry {
                    leaf: n as u8,
                    outcome,
                });
            }
        }
        None
    }
}

// The record bytes of the plainest run that leaves the set, where some complete run does.
pub fn show<'a>(rows: &'a Rows, process: &Process<'a, 10>, set: usize) -> [u8; 126]
    requires { (set < 2 ^ most_actions) × LeftBy process.now.types.now process.now.nodes.now set }
    ensures { result ≡ plainest_bytes process.now.types.now process.now.nodes.now set }
{
    let sought = Sought::new(rows, process, set);
    let mut table = [0u8; 63];
    let mut run = [0u8; 126];
    for i in 0..63 {
        let next = state::told_by(process, &table).next;
        let Some(e) = sought.entry(&table, next) else {
            return run;
        };
        run[2 * i] = e.leaf;
        run[2 * i + 1] = e.outcome;
        table[usize::from(e.leaf)] = e.outcome;
    }
    run
}
