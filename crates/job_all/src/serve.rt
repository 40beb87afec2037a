ghost use Rattle.std.specs.Prelude.{◌≡◌, [], ◌++◌, IfOk, string_bytes, OnOk};
ghost use Rattle.toll.specs.SecondsKind.{seconds_kind};
ghost use Rattle.floor.specs.Grid.{hall_meaning};
ghost use Rattle.planner.specs.Served.{world_of, turn_of, served};
ghost use Rattle.jobtext.specs.Texts.{reply_text};
ghost use Rattle.job_all.specs.Jobs.{refusal_line, answer_line, call_of, as_line, served_under};
ghost use Rattle.job_all.specs.Fitting.{WayFits};

use super::decide::{Service, decide};
use super::standing::Standing;
use floor::Hall;
use jobtext::line::Line;
use jobtext::text::Reply;
use planner::{Answer, Call, Carrier, Planner, Reading};
use std::fmt;
use toll::{Refusal, Seconds};

/// Adds an answer line.
pub(super) fn write_reply(out: &mut String, reply: Reply<'_>) -> fmt::Result
    ensures { OnOk result (string_bytes out.new ≡ string_bytes out.old ++ reply_text reply.entry) }
{
    // The error of `write!` to a text is another than `fmt::Error`, so `?` turns it.
    write!(out, "{reply}")?;
    Ok(())
}

/// Adds the answer line of a refusal.
pub fn refuse(out: &mut String, why: Refusal) -> fmt::Result
    ensures { OnOk result (string_bytes out.new ≡ string_bytes out.old ++ refusal_line why) }
{
    write_reply(out, Reply::No(u32::from(why.number())))
}

/// The call that a line makes; a floor line makes none.
fn call_of(line: Line) -> Option<Call<Seconds>>
    ensures { result ≡ call_of line }
{
    // A function and no `TryFrom`, since both types are of other crates.
    match line {
        Line::Floor { .. } => None,
        Line::Change { spot, toll } => Some(Call::Change {
            spot,
            toll: Seconds::new(toll),
        }),
        Line::Put(place) => Some(Call::Put(place)),
        Line::Route => Some(Call::Route),
        Line::Step => Some(Call::Step),
        Line::Halt => Some(Call::Halt),
        Line::Query(place) => Some(Call::Read(place)),
        Line::Tally => Some(Call::Tally),
    }
}

/// Adds the answer line of a reading: the toll and the next place, or `-` for none.
fn write_reading(out: &mut String, reading: Reading<Seconds>) -> fmt::Result
    ensures { OnOk result (string_bytes out.new ≡ string_bytes out.old ++ answer_line (Answer.Reading reading) []) }
{
    let toll = reading.toll.map(|toll| toll.value());
    let next = reading.next.map(u32::from);
    write_reply(out, Reply::Fields(&[toll, next]))
}

/// Adds the answer line of a call; the way of a route stands at the front of the buffer.
fn write_answer(out: &mut String, answer: Answer<Seconds>, way: &[u16]) -> fmt::Result
    requires { WayFits answer way.now }
    ensures { OnOk result (string_bytes out.new ≡ string_bytes out.old ++ answer_line answer way.now) }
{
    match answer {
        Answer::Refused(why) => refuse(out, why),
        Answer::Done => write_reply(out, Reply::Fields(&[])),
        Answer::Route(route) => write_reply(
            out,
            Reply::Route {
                toll: route.toll.value(),
                count: route.count,
                way: &way[..usize::from(route.length)],
            },
        ),
        Answer::Place(place) => write_reply(out, Reply::Fields(&[Some(place)])),
        Answer::Reading(reading) => write_reading(out, reading),
        Answer::Tally(tally) => write_reply(out, Reply::Fields(&[Some(tally)])),
    }
}

/// Serves one call with that buffer for a way, and adds its answer line.
fn serve_call(
    planner: &mut Planner<'_, Seconds>,
    hall: &mut Hall,
    carrier: Carrier,
    call: Call<Seconds>,
    way: &mut [u16],
    out: &mut String,
) -> Result<Carrier, fmt::Error>
    ensures world { OnOk result (world_of (hall_meaning hall.new) planner.new ≡ (as_line (served seconds_kind (world_of (hall_meaning hall.old) planner.old) (turn_of carrier call way.old))).world) }
    ensures carrier { IfOk result (λ c. c ≡ (as_line (served seconds_kind (world_of (hall_meaning hall.old) planner.old) (turn_of carrier call way.old))).slip) }
    ensures text { OnOk result (string_bytes out.new ≡ string_bytes out.old ++ (as_line (served seconds_kind (world_of (hall_meaning hall.old) planner.old) (turn_of carrier call way.old))).text) }
{
    let (carrier, answer) = planner.serve(hall, carrier, call, way);
    write_answer(out, answer, way)?;
    Ok(carrier)
}

/// Serves one line once there is a floor, and adds its answer line.
pub fn serve_line_by<S: Service>(
    planner: &mut Planner<'_, Seconds>,
    hall: &mut Hall,
    carrier: Carrier,
    text: &[u8],
    out: &mut String,
) -> Result<Carrier, fmt::Error>
    ensures world { OnOk result (world_of (hall_meaning hall.new) planner.new ≡ (served_under S.allowed (world_of (hall_meaning hall.old) planner.old) carrier text.now).world) }
    ensures carrier { IfOk result (λ c. c ≡ (served_under S.allowed (world_of (hall_meaning hall.old) planner.old) carrier text.now).slip) }
    ensures text { OnOk result (string_bytes out.new ≡ string_bytes out.old ++ (served_under S.allowed (world_of (hall_meaning hall.old) planner.old) carrier text.now).text) }
{
    match decide::<S>(text, Standing::from(&carrier)) {
        Err(why) => {
            refuse(out, why)?;
            Ok(carrier)
        }
        // One match in the other: with `and_then` before a single one, what a refusal leaves stays open.
        Ok(line) => match call_of(line) {
            None => {
                refuse(out, Refusal::NotNow)?;
                Ok(carrier)
            }
            // Only a route writes into its buffer.
            Some(call) => match call {
                Call::Route => serve_call(planner, hall, carrier, call, &mut [0; 1024], out),
                _ => serve_call(planner, hall, carrier, call, &mut [], out),
            },
        },
    }
}
