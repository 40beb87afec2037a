//! A whole job by one call of the library, held to its stored output in the gate: the lines at their edges.
#![tactic(auto)]

use console::read_job;
use job_all::run_job;

// The same five lines in both programs that serve a whole job: a function for them could promise nothing but that it prints.
fn run(rt: &HostRuntime) -> anyhow::Result<()> {
    let text = read_job(rt.alloc(), rt.stdin())?;
    let mut out = String::new(rt.alloc());
    run_job(&text, &mut out)?;
    rt.print(out.as_str())?;
    Ok(())
}

fn main(rt: HostRuntime) -> anyhow::Result<()> {
    run(&rt)
}
