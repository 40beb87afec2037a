//! A job of planning lines: a hall is set up, and routes are planned and readings taken on it; every other line is refused.
#![tactic(auto)]

mod job;
mod planning;

pub use job::run_job;
pub use job_all::Standing;
pub use planner::Carrier;
pub use planning::PlanningLines;
