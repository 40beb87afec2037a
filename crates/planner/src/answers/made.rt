use super::{Answer, Reading};
use toll::Refusal;

/// What a change answers.
impl<T> From<Result<(), Refusal>> for Answer<T> {
    ghost use Rattle.std.specs.Prelude.{◌≡◌};
    ghost use Rattle.planner.specs.Handed.{change_done};

    ghost from_gives = { λ done answer. answer ≡ change_done done };

    fn from(done: Result<(), Refusal>) -> Answer<T> {
        match done {
            Ok(()) => Answer::Done,
            Err(why) => Answer::Refused(why),
        }
    }
}

/// What a reading answers.
impl<T> From<Result<Reading<T>, Refusal>> for Answer<T> {
    ghost use Rattle.std.specs.Prelude.{◌≡◌};
    ghost use Rattle.planner.specs.Handed.{read_done};

    ghost from_gives = { λ done answer. answer ≡ read_done done };

    fn from(done: Result<Reading<T>, Refusal>) -> Answer<T> {
        match done {
            Ok(reading) => Answer::Reading(reading),
            Err(why) => Answer::Refused(why),
        }
    }
}
