ghost use Rattle.std.specs.Prelude.{◌≡◌, ◌++◌, string_bytes, OnOk};
ghost use Rattle.job.specs.Jobs.{job_text};

use super::planning::PlanningLines;
use job_all::run_job_by;
use std::fmt;

/// Serves a whole job, and adds an answer line for each of its lines; a job over 65,536 bytes is refused as a whole.
#[tactic(auto, using(crate::proofs::Alike::job_alike))]
pub fn run_job(text: &[u8], out: &mut String) -> fmt::Result
    ensures { OnOk result (string_bytes out.new ≡ string_bytes out.old ++ job_text text.now) }
{
    run_job_by::<PlanningLines>(text, out)
}
