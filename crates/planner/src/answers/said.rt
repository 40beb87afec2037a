ghost use Rattle.std.specs.Prelude.{◌≡◌};
ghost use Rattle.planner.specs.Served.{said};

use super::Answer;
use toll::Toll;

impl<T: Toll> Answer<T> {
    /// The number of the refusal, if it is one.
    pub fn refused(&self) -> Option<u8>
        ensures { result ≡ (said self.now).refusal }
    {
        // The number and not the refusal, since the promise speaks of numbers.
        match self {
            Answer::Refused(why) => Some(why.number()),
            _ => None,
        }
    }
}
