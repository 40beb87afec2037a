/// A call of the planner with its numbers; what it is shown beside them are a slip, the floor and a buffer.
#[derive(Clone, Copy, PartialEq, Eq, Debug)]
pub enum Call<T> {
    /// Sets a spot's toll and repairs the tree.
    Change { spot: u32, toll: T },
    /// Names another place for the parked carrier.
    Put(u32),
    /// Plans the way from the parked carrier's place to the target.
    Route,
    /// Goes on to the next place.
    Step,
    /// Parks the carrier where it is.
    Halt,
    /// Reads what is recorded of a place.
    Read(u32),
    /// Reads the sum of the counts of all routes.
    Tally,
}
