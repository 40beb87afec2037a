ghost use Rattle.std.specs.Prelude.{◌≡◌, ℕ, Bool};
ghost use Rattle.jobtext.specs.Parsing.{parse_line};
ghost use Rattle.job_all.specs.declared.standing.Standing.{Standing};
ghost use Rattle.job_all.specs.Decisions.{allowed_now, decided_under};

use super::standing::Standing;
use jobtext::line::Line;
use jobtext::parse::parse;
use toll::Refusal;

/// Which lines a job serves.
pub trait Service {
    ghost allowed: { ℕ → Standing → Bool };

    /// Whether a line with that letter is served where the job stands.
    fn allowed(letter: char, standing: Standing) -> bool
        ensures { result ≡ allowed letter standing };
}

/// Every line is served in its turn.
pub struct AllLines;

impl Service for AllLines {
    ghost allowed = { allowed_now };

    fn allowed(letter: char, standing: Standing) -> bool {
        match (letter, standing) {
            ('F', Standing::Empty) => true,
            ('C' | 'P' | 'R', Standing::Parked) => true,
            ('S' | 'H', Standing::UnderWay) => true,
            ('Q' | 'T', Standing::Parked | Standing::UnderWay) => true,
            _ => false,
        }
    }
}

/// The line that the text writes, if it is served where the job stands: first its form is looked at, then its letter.
pub fn decide<S: Service>(text: &[u8], standing: Standing) -> Result<Line, Refusal>
    ensures { result ≡ decided_under S.allowed standing (parse_line text.now) }
{
    let line = parse(text).ok_or(Refusal::BadLine)?;
    if S::allowed(line.letter(), standing) {
        Ok(line)
    } else {
        Err(Refusal::NotNow)
    }
}
