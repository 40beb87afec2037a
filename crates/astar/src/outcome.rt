/// How a search ends.
#[derive(Clone, Copy, PartialEq, Eq, Debug)]
pub enum Outcome {
    /// The recorded way from the carrier's place is found.
    Solved,
    /// No place is open, and the carrier's place is outside the tree.
    NoWay,
}
