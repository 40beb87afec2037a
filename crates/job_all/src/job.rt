ghost use Rattle.std.specs.Prelude.{◌≡◌, ◌++◌, length, string_bytes, OnOk};
ghost use Rattle.floor.specs.Grid.{hall_meaning};
ghost use Rattle.planner.specs.Served.{world_of};
ghost use Rattle.jobtext.specs.Lines.{lines, lines_left};
ghost use Rattle.job_all.specs.Jobs.{empty, running, lines_under, job_under};

use super::decide::Service;
use super::opening::{Opening, open_line_by};
use super::serve::{refuse, serve_line_by};
use floor::{Floor, Hall};
use jobtext::lines::Lines;
use planner::{Carrier, Planner, Record};
use std::fmt;
use toll::{Refusal, Seconds};

/// A job has at most so many bytes.
pub const LONGEST: usize = 65536;

// Two loops: one state with a method for a line would hold a `&mut` beside a hall with a ghost field, which no function can hand back in a `Result` yet.

/// Serves all lines once there is a floor.
fn serve_all<S: Service>(
    planner: &mut Planner<'_, Seconds>,
    hall: &mut Hall,
    mut carrier: Carrier,
    lines: Lines<'_>,
    out: &mut String,
) -> fmt::Result
    ensures { OnOk result (string_bytes out.new ≡ string_bytes out.old ++ lines_under S.allowed (running (world_of (hall_meaning hall.old) planner.old) carrier) (lines_left lines.entry)) }
{
    for line in lines {
        carrier = serve_line_by::<S>(planner, hall, carrier, line, out)?;
    }
    Ok(())
}

/// Serves all lines from the first on: until a floor is accepted only a floor line is allowed.
fn run_lines<S: Service>(
    table: &mut [Record<Seconds>],
    text: &[u8],
    out: &mut String,
) -> fmt::Result
    ensures { OnOk result (string_bytes out.new ≡ string_bytes out.old ++ lines_under S.allowed (empty (length table.old)) (lines text.now)) }
{
    let mut lines = Lines::new(text);
    while let Some(line) = lines.next() {
        if let Some(
            Opening {
                mut hall,
                target,
                place,
            },
        ) = open_line_by::<S>(table, line, out)?
        {
            let (mut planner, slip) = Planner::make(table, &hall, target, place);
            return serve_all::<S>(&mut planner, &mut hall, Carrier::Parked(slip), lines, out);
        }
    }
    Ok(())
}

/// Serves a whole job, and adds an answer line for each of its lines; a job over 65,536 bytes is refused as a whole.
pub fn run_job_by<S: Service>(text: &[u8], out: &mut String) -> fmt::Result
    ensures { OnOk result (string_bytes out.new ≡ string_bytes out.old ++ job_under S.allowed text.now) }
{
    if text.len() > LONGEST {
        return refuse(out, Refusal::BadLine);
    }
    // Arrays here and in `serve_line_by`, since the unit uses fixed memory.
    let mut table = [Record::<Seconds>::blank(); 1024];
    run_lines::<S>(&mut table, text, out)
}
