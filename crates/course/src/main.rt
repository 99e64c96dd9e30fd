// Judges the plans of the course, one after the other: the name of each, and then the lines of its verdict.
#![tactic(auto)]

use output::Failed;

const PLANS: [&[u8]; 19] = [
    b"p1.plan",
    b"p2.plan",
    b"p3.plan",
    b"p4.plan",
    b"p5.plan",
    b"p6.plan",
    b"p7.plan",
    b"p8.plan",
    b"swallowed.plan",
    b"mended.plan",
    b"broken.plan",
    b"withdrawn.plan",
    b"retried.plan",
    b"q1.plan",
    b"q2.plan",
    b"q3.plan",
    b"q4.plan",
    b"q5.plan",
    b"restored.plan",
];

// The plan of this name. One that is longer than the largest plan file is refused by the number of its first MOST_BYTES + 1 bytes.
fn plan(rt: &HostRuntime, name: &[u8]) -> Result<(), Failed> {
    let mut file = [0u8; plan::MOST_BYTES + 1];
    let n = input::fill_from(rt, name, &mut file).map_err(|e| output::fail(
        &rt.stderr(),
        name,
        e.why,
    ))?;
    output::show(rt, &rt.stderr(), &report::named_lines(name, &file[..n]))
}

// A plan that fails is told, and the next is judged.
fn main(rt: HostRuntime) {
    for name in PLANS {
        let _ = plan(&rt, name);
    }
}
