// Judges a plan file on standard input: it writes `consistent`; or `violated` and the smallest set that breaks the plan's rule, and then the
// plainest complete run that leaves this set, a line for each entry, leaf and outcome; or `refused` and document 01's number for why.
#![tactic(auto)]

use output::Failed;

// An input that is longer than the largest plan file is refused by the number of its first MOST_BYTES + 1 bytes.
fn run(rt: &HostRuntime) -> Result<(), Failed> {
    let mut file = [0u8; plan::MOST_BYTES + 1];
    let n = input::fill(&mut rt.stdin(), &mut file).map_err(|e| output::fail(
        &rt.stderr(),
        b"standard input",
        e.why,
    ))?;
    output::show(rt, &rt.stderr(), &report::verdict_lines(&file[..n]))
}

fn main(rt: HostRuntime) {
    let _ = run(&rt);
}
