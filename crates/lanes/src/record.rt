/// A lane: the place that it leaves, the place that it enters, and its toll.
#[derive(Clone, Copy, PartialEq, Eq, Debug)]
pub struct LaneRecord<T> {
    pub leaves: u16,
    pub enters: u16,
    pub toll: T,
}
