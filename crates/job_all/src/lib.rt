//! A job: lines of text that set a hall up and drive the planner on it, each answered by one line.
#![tactic(auto)]

mod all;
mod decide;
mod job;
mod opening;
mod serve;
mod standing;

pub use all::{open_line, run_job, serve_line};
pub use decide::{AllLines, Service};
pub use job::{LONGEST, run_job_by};
pub use opening::{Opening, open_line_by};
pub use serve::serve_line_by;
pub use standing::Standing;
