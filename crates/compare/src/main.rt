// Compares the product with vectors that an independent model made, a data file for each group, and writes a line of counts for each.
// The first vector of a group that differs has a line of its own, above that of the counts.
//
// What a data file comes to, and its lines, are the crate `comparison`'s; docs/VECTORS.md says what the vectors are and how they are made.
#![tactic(auto)]

ghost use Rattle.std.specs.Prelude.{◌≡◌, length, replicate};

use output::Failed;
use vectors::Group;

// Room for a whole data file, all 0. A longer one is cut there, and is damaged where a vector or more is then missing.
fn room() -> [u8; 1048576]
    ensures long { 1048576 ≡ length result }
    ensures zeros { result ≡ replicate 1048576 0 }
{
    [0; 1048576]
}

// The group's vectors, from the data file of this name.
fn run(rt: &HostRuntime, group: Group, name: &[u8], data: &mut [u8]) -> Result<(), Failed> {
    let n = input::fill_from(rt, name, data).map_err(|e| output::fail(&rt.stderr(), name, e.why))?;
    output::show(
        rt,
        &rt.stderr(),
        &comparison::lines::lines(group, &data[..n]),
    )
}

const GROUPS: [(Group, &[u8]); 6] = [
    (Group::Files, b"files"),
    (Group::Runs, b"runs"),
    (Group::Hours, b"hours"),
    (Group::Verdicts, b"verdicts"),
    (Group::Formulas, b"formulas"),
    (Group::Classes, b"classes"),
];

// A data file that fails is told, and the next group is compared.
fn main(rt: HostRuntime) {
    let mut data = room();
    for (group, name) in GROUPS {
        let _ = run(&rt, group, name, &mut data);
    }
}
