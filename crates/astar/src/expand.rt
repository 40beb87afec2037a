ghost use Rattle.std.specs.Prelude.{◌≡◌};
ghost use Rattle.floor.specs.Meaning.{lane_toll, into};
ghost use Rattle.tree.specs.Tree.{tree_of};
ghost use Rattle.astar.specs.Search.{improves as improves_on, offer as offered, offer_lane, relaxed, expand as expanded};

use floor::{Floor, Lanes};
use toll::Toll;
use tree::Record;
use tree::table::{close, enter, toll_at};

/// Whether a toll is below shut, and below the toll that may be held.
pub fn improves<T: Toll>(held: Option<T>, toll: T) -> bool
    ensures { result ≡ improves_on T.Toll.tolls held toll }
{
    toll.is_below(T::shut()) && held.is_none_or(|held| toll.is_below(held))
}

/// Records a toll and a next place, and opens the place, if that improves it.
pub fn offer<T: Toll>(table: &mut [Record<T>], place: u16, next: u16, toll: T)
    ensures { tree_of table.new ≡ offered T.Toll.tolls place next toll (tree_of table.old) }
{
    if improves(toll_at(table, place), toll) {
        enter(table, place, toll, next);
    }
}

/// Tries a lane into a place: its toll joined with the place's own is offered to the place that the lane leaves.
pub fn relax<T: Toll, F: Floor<Toll = T>>(
    table: &mut [Record<T>],
    floor: &F,
    place: u16,
    toll: T,
    lane: u16,
)
    ensures { tree_of table.new ≡ offer_lane T.Toll.tolls place toll ((F.Floor.meaning floor.now).lane lane) (lane_toll (F.Floor.meaning floor.now) lane) (tree_of table.old) }
{
    if let (Some((from, _)), Some(cost)) = (floor.lane_ends(lane), floor.lane_toll(lane)) {
        offer(table, from, place, cost.join(toll));
    }
}

/// Tries all lanes into a place with its recorded toll.
pub fn relax_all<T: Toll, F: Floor<Toll = T>>(
    table: &mut [Record<T>],
    floor: &F,
    place: u16,
    toll: T,
)
    ensures { tree_of table.new ≡ relaxed T.Toll.tolls (F.Floor.meaning floor.now) place toll (into (F.Floor.meaning floor.now) place) (tree_of table.old) }
{
    for lane in Lanes::into(floor, place) {
        relax(table, floor, place, toll, lane);
    }
}

/// Expands a place: it is no longer open, and all lanes into it are tried.
pub fn expand<T: Toll, F: Floor<Toll = T>>(table: &mut [Record<T>], floor: &F, place: u16)
    ensures { tree_of table.new ≡ expanded T.Toll.tolls (F.Floor.meaning floor.now) place (tree_of table.old) }
{
    let toll = toll_at(table, place);
    close(table, place);
    if let Some(toll) = toll {
        relax_all(table, floor, place, toll);
    }
}
