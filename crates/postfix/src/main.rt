// Turns a rule typed on standard input into postfix order, and writes its bytes on a line, or `refused` and document 02's number for why.
#![tactic(auto)]

use output::Failed;

fn run(rt: &HostRuntime, held: &mut [u8]) -> Result<(), Failed> {
    let n = input::fill(&mut rt.stdin(), held).map_err(|e| output::fail(
        &rt.stderr(),
        b"standard input",
        e.why,
    ))?;
    match reply::reply_to(&held[..n]) {
        Ok(line) => output::show(rt, &rt.stderr(), &line),
        Err(told) => {
            // Where standard error takes nothing there is nobody left to tell.
            let _ = output::write(&rt.stderr(), &told);
            Err(Failed)
        }
    }
}

fn main(rt: HostRuntime) {
    let mut held = reply::room();
    let _ = run(&rt, &mut held);
}
