/// The toll of a way and the number of its lanes.
#[derive(Clone, Copy, PartialEq, Eq, Debug)]
pub struct Trace<T> {
    pub toll: T,
    pub lanes: u16,
}
