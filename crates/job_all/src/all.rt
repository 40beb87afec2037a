ghost use Rattle.std.specs.Prelude.{◌≡◌, ◌≤◌, ◌++◌, length, IfOk, string_bytes, OnOk};
ghost use Rattle.floor.specs.Grid.{hall_meaning};
ghost use Rattle.planner.specs.Served.{world_of};
ghost use Rattle.job_all.specs.Jobs.{opened_text, opened_stage, found_by, served_text, job_text};
ghost use Rattle.job_all.specs.JobLaws.{JobLaws};

use super::decide::AllLines;
use super::job::run_job_by;
use super::opening::{Opening, open_line_by};
use super::serve::serve_line_by;
use floor::Hall;
use planner::{Carrier, Planner, Record};
use std::fmt;
use toll::Seconds;

/// Looks at one line while there is no floor, and adds its answer line.
pub fn open_line(
    table: &[Record<Seconds>],
    text: &[u8],
    out: &mut String,
) -> Result<Option<Opening>, fmt::Error>
    ensures opening { IfOk result (λ o. found_by (length table.now) (opened_text (length table.now) text.now) o) }
    ensures text { OnOk result (string_bytes out.new ≡ string_bytes out.old ++ (opened_stage (length table.now) (opened_text (length table.now) text.now)).text) }
{
    open_line_by::<AllLines>(table, text, out)
}

/// Serves one line once there is a floor, and adds its answer line.
pub fn serve_line(
    planner: &mut Planner<'_, Seconds>,
    hall: &mut Hall,
    carrier: Carrier,
    text: &[u8],
    out: &mut String,
) -> Result<Carrier, fmt::Error>
    ensures world { OnOk result (world_of (hall_meaning hall.new) planner.new ≡ (served_text (world_of (hall_meaning hall.old) planner.old) carrier text.now).world) }
    ensures carrier { IfOk result (λ c. c ≡ (served_text (world_of (hall_meaning hall.old) planner.old) carrier text.now).slip) }
    ensures text { OnOk result (string_bytes out.new ≡ string_bytes out.old ++ (served_text (world_of (hall_meaning hall.old) planner.old) carrier text.now).text) }
{
    serve_line_by::<AllLines>(planner, hall, carrier, text, out)
}

/// Serves a whole job, and adds an answer line for each of its lines; a job over 65,536 bytes is refused as a whole.
#[tactic(auto, using(crate::proofs::Laws::job_laws))]
pub fn run_job(text: &[u8], out: &mut String) -> fmt::Result
    ensures text { OnOk result (string_bytes out.new ≡ string_bytes out.old ++ job_text text.now) }
    ensures laws { length text.now ≤ 65536 → JobLaws text.now }
{
    run_job_by::<AllLines>(text, out)
}
