ghost use Rattle.std.specs.Prelude.{◌≡◌, ◌-◌, ◌<◌, ◌≤◌, ◌++◌, length, drop, IfSome};
ghost use Rattle.std.specs.Option.{option_map};
ghost use Rattle.floor.specs.Meaning.{has};
ghost use Rattle.tree.specs.Tree.{tree_of};
ghost use Rattle.tree.specs.Ways.{toll_between, next_step, same_toll, borne_out, traced, walked, trail};

use crate::record::Record;
use crate::table::{next_at, toll_at};
use crate::trace::Trace;
use floor::{Floor, Lanes};
use toll::Toll;

/// Whether there is such a lane, and it enters the place.
pub fn enters<F: Floor>(floor: &F, lane: u16, place: u16) -> bool
    ensures { result ≡ has (λ x. x.enters) place ((F.Floor.meaning floor.now).lane lane) }
{
    floor
        .lane_ends(lane)
        .is_some_and(|(_, entered)| entered == place)
}

/// The toll of the lane from one place to another.
pub fn toll_between<F: Floor>(floor: &F, from: u16, to: u16) -> Option<F::Toll>
    ensures { result ≡ toll_between (F.Floor.meaning floor.now) from to }
{
    Lanes::out_of(floor, from)
        .find(|lane| enters(floor, *lane, to))
        .and_then(|lane| floor.lane_toll(lane))
}

/// The place after a place in the tree, if a lane leads there.
pub fn next_step<T: Toll, F: Floor<Toll = T>>(
    table: &[Record<T>],
    floor: &F,
    place: u16,
) -> Option<u16>
    ensures { result ≡ next_step (F.Floor.meaning floor.now) (tree_of table.now) place }
{
    toll_at(table, place)?;
    let next = next_at(table, place)?;
    toll_between(floor, place, next)?;
    Some(next)
}

/// The toll of the recorded way and the number of its lanes, if it reaches the target within places − 1 lanes and no lane is missing.
fn walk<T: Toll, F: Floor<Toll = T>>(
    table: &[Record<T>],
    floor: &F,
    target: u16,
    from: u16,
) -> Option<Trace<T>>
    requires { length table.now < 65536 }
    ensures value { result ≡ walked T.Toll.tolls (F.Floor.meaning floor.now) (tree_of table.now) target (length table.now - 1) from }
    ensures few { IfSome result (λ p. p.lanes ≤ length table.now - 1) }
{
    let mut place = from;
    let mut toll = T::zero();
    // Counted by hand: the way may end after any lane, and the count is the trace's.
    let mut lanes = 0;
    while place != target {
        if lanes as usize + 1 >= table.len() {
            return None;
        }
        let next = next_at(table, place)?;
        let cost = toll_between(floor, place, next)?;
        toll = toll.join(cost);
        place = next;
        lanes += 1;
    }
    Some(Trace { toll, lanes })
}

/// Whether a toll is the one that may be recorded.
fn is_toll<T: Toll>(toll: T, held: Option<T>) -> bool
    ensures { result ≡ same_toll T.Toll.tolls toll held }
{
    held.is_some_and(|held| toll.is_same(held))
}

/// The toll of the recorded way and the number of its lanes, where the floor bears it out.
pub fn borne_out<T: Toll, F: Floor<Toll = T>>(
    table: &[Record<T>],
    floor: &F,
    target: u16,
    from: u16,
) -> Option<Trace<T>>
    requires { length table.now < 65536 }
    ensures value { result ≡ option_map (λ p. traced p.0 p.1) (borne_out T.Toll.tolls (F.Floor.meaning floor.now) (tree_of table.now) target from) }
    ensures few { IfSome result (λ p. p.lanes ≤ length table.now - 1) }
{
    let trace = walk(table, floor, target, from)?;
    is_toll(trace.toll, toll_at(table, from)).then_some(trace)
}

/// Writes that many places, each followed by its next place, to the front of the buffer.
pub fn write_way<T: Toll>(table: &[Record<T>], from: u16, count: u16, way: &mut [u16])
    requires { count ≤ length way.old }
    ensures { way.new ≡ trail (tree_of table.now) count from ++ drop count way.old }
{
    let mut place = from;
    // By index, since after `iter_mut` a proof knows the buffer's length alone.
    for i in 0..count {
        way[i as usize] = place;
        place = next_at(table, place).unwrap_or(place);
    }
}
