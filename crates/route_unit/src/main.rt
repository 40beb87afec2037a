#![tactic(auto)]

use console::read_job;
use job::run_job;

// The same five lines in both programs that serve a whole job: a function for them could promise nothing but that it prints.
fn run(rt: &HostRuntime) -> anyhow::Result<()> {
    let text = read_job(rt.alloc(), rt.stdin())?;
    let mut out = String::new(rt.alloc());
    run_job(&text, &mut out)?;
    rt.print(out.as_str())?;
    Ok(())
}

fn main(rt: HostRuntime) -> anyhow::Result<()> {
    run(&rt)
}
