//! The promise at work: on a fixed list of calls with no premise at all, and part by part.
#![tactic(auto)]

mod calls;
mod parts;

pub use calls::fixed_calls;
pub use parts::{change_drops, route_answers, route_expands, step_in_order};
