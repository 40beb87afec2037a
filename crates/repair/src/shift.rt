/// What became of a toll.
#[derive(Clone, Copy, PartialEq, Eq, Debug)]
pub enum Shift {
    Dearer,
    Cheaper,
    Same,
}
