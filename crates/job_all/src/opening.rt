ghost use Rattle.std.specs.Prelude.{◌≡◌, ◌++◌, length, IfOk, string_bytes, OnOk};
ghost use Rattle.std.specs.Result.{result_map_both};
ghost use Rattle.job_all.specs.Jobs.{start_of, opened, opened_under, opened_stage, found_by};

use super::decide::{Service, decide};
use super::serve::{refuse, write_reply};
use super::standing::Standing;
use floor::{Floor, Hall};
use jobtext::line::Line;
use jobtext::text::Reply;
use planner::{Planner, Record};
use std::fmt;
use toll::{Refusal, Seconds};

/// A floor line that was accepted: the hall, the target and the carrier's place.
#[derive(Drop)]
pub struct Opening {
    pub hall: Hall,
    pub target: u32,
    pub place: u32,
}

/// The hall of a floor line, if it can be made and a planner can be set up on it.
fn open_floor(table: &[Record<Seconds>], line: Line) -> Result<Opening, Refusal>
    ensures { result_map_both (start_of (length table.now)) (λ why. why) result ≡ opened (length table.now) line }
{
    let Line::Floor {
        rows,
        columns,
        least,
        target,
        place,
    } = line
    else {
        return Err(Refusal::NotNow);
    };
    let hall = Hall::make(rows, columns, Seconds::new(least))?;
    Planner::check(table, &hall, target, place)?;
    Ok(Opening {
        hall,
        target,
        place,
    })
}

/// Looks at one line while there is no floor, and adds its answer line.
pub fn open_line_by<S: Service>(
    table: &[Record<Seconds>],
    text: &[u8],
    out: &mut String,
) -> Result<Option<Opening>, fmt::Error>
    ensures opening { IfOk result (λ o. found_by (length table.now) (opened_under S.allowed (length table.now) text.now) o) }
    ensures text { OnOk result (string_bytes out.new ≡ string_bytes out.old ++ (opened_stage (length table.now) (opened_under S.allowed (length table.now) text.now)).text) }
{
    match decide::<S>(text, Standing::Empty).and_then(|line| open_floor(table, line)) {
        Ok(opening) => {
            write_reply(
                out,
                Reply::Fields(&[Some(u32::from(opening.hall.places()))]),
            )?;
            Ok(Some(opening))
        }
        Err(why) => {
            refuse(out, why)?;
            Ok(None)
        }
    }
}
