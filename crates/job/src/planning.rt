ghost use Rattle.job.specs.Decisions.{allowed_now};

use job_all::{Service, Standing};

/// The lines of set-up and of planning alone are served: F, R, Q and T.
pub struct PlanningLines;

impl Service for PlanningLines {
    ghost allowed = { allowed_now };

    fn allowed(letter: char, standing: Standing) -> bool {
        match (letter, standing) {
            ('F', Standing::Empty) => true,
            ('R', Standing::Parked) => true,
            ('Q' | 'T', Standing::Parked | Standing::UnderWay) => true,
            _ => false,
        }
    }
}
