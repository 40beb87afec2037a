//! The planner of one carrier: the table that it is lent, and the calls.
#![tactic(auto)]

mod answers;
mod call;
mod carrier;
mod planner;
mod slips;

pub use answers::{Answer, Reading, Route};
pub use call::Call;
pub use carrier::Carrier;
pub use planner::Planner;
pub use slips::{Parked, UnderWay};
pub use tree::Record;
