#![tactic(auto)]

use console::read_job;
use job_all::{LONGEST, Opening, open_line, run_job, serve_line};
use jobtext::lines::Lines;
use planner::{Carrier, Planner, Record};
use toll::Seconds;

/// Prints what was written, and takes it away.
fn print(rt: &HostRuntime, out: &mut String) -> anyhow::Result<()> {
    rt.print(out.as_str())?;
    out.clear();
    Ok(())
}

// These two loops are those of `job_all`, but print each answer line before the next line is served.

/// Serves the lines behind an accepted floor line, and prints each answer line as it is made.
fn serve_rest(
    rt: &HostRuntime,
    table: &mut [Record<Seconds>],
    opening: Opening,
    lines: Lines<'_>,
) -> anyhow::Result<()> {
    let Opening {
        mut hall,
        target,
        place,
    } = opening;
    let (mut planner, slip) = Planner::make(table, &hall, target, place);
    let mut carrier = Carrier::Parked(slip);
    let mut out = String::new(rt.alloc());
    for line in lines {
        carrier = serve_line(&mut planner, &mut hall, carrier, line, &mut out)?;
        print(rt, &mut out)?;
    }
    Ok(())
}

/// Serves a job that is not too long; until a floor line is accepted, no other is served.
fn serve(rt: &HostRuntime, table: &mut [Record<Seconds>], text: &[u8]) -> anyhow::Result<()> {
    let mut out = String::new(rt.alloc());
    let mut lines = Lines::new(text);
    while let Some(line) = lines.next() {
        let opening = open_line(table, line, &mut out)?;
        print(rt, &mut out)?;
        if let Some(opening) = opening {
            return serve_rest(rt, table, opening, lines);
        }
    }
    Ok(())
}

fn run(rt: &HostRuntime) -> anyhow::Result<()> {
    let text = read_job(rt.alloc(), rt.stdin())?;
    if text.len() > LONGEST {
        let mut out = String::new(rt.alloc());
        run_job(&text, &mut out)?;
        return print(rt, &mut out);
    }
    let mut table = [Record::<Seconds>::blank(); 1024];
    serve(rt, &mut table, &text)
}

fn main(rt: HostRuntime) -> anyhow::Result<()> {
    run(&rt)
}
