//! What the programs that hold the planner to its peers share: the random numbers, the floors and tolls that are drawn, plain
//! relaxation, which shares no code with the planner and asks a floor itself, and the score of single routes.
#![tactic(auto)]

mod counting;
mod draw;
mod halls;
mod plans;
mod random;
mod relaxation;
mod score;

pub use counting::counted;
pub use draw::Draw;
pub use halls::some_hall;
pub use plans::some_records;
pub use random::{Odds, Random};
pub use relaxation::Relaxed;
pub use score::compare_routes;
