use toll::Refusal;

/// What a route answers: its toll, how many places the search expanded, and how many places the way has. The way itself is in
/// the caller's buffer, which an answer does not borrow.
#[derive(Clone, Copy, PartialEq, Eq, Debug)]
pub struct Route<T> {
    pub toll: T,
    pub count: u32,
    pub length: u16,
}

/// What is recorded of a place: its toll to the target, exactly if it is in the tree, and its next place.
#[derive(Clone, Copy, PartialEq, Eq, Debug)]
pub struct Reading<T> {
    pub toll: Option<T>,
    pub next: Option<u16>,
}

/// What a call answers.
#[derive(Clone, Copy, PartialEq, Eq, Debug)]
pub enum Answer<T> {
    /// It is refused.
    Refused(Refusal),
    /// A change or a put is done.
    Done,
    /// A route is planned.
    Route(Route<T>),
    /// Where the carrier is after a step or a halt.
    Place(u32),
    /// What is recorded of a place.
    Reading(Reading<T>),
    /// The sum of all search counts.
    Tally(u32),
}

mod made;
pub mod said;
