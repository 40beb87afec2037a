//! Tolls: what a carrier pays on its way. The trait `Toll` says what every kind of toll owes,
//! `Seconds` and `Gates` are the two kinds, and `Refusal` is what a call answers when it says no.
#![tactic(auto)]

mod gates;
mod refusal;
mod seconds;
#[cfg(test)]
mod tests;
mod toll;

pub use gates::Gates;
pub use refusal::Refusal;
pub use seconds::Seconds;
pub use toll::Toll;
