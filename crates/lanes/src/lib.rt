//! Lane plans: floors that are told by a list of lane records, which the caller lends.
#![tactic(auto)]

mod plan;
mod record;

pub use plan::LanePlan;
pub use record::LaneRecord;
