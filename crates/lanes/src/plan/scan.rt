ghost use Rattle.std.specs.Prelude.{◌≡◌, Bool};
ghost use Rattle.std.specs.List.{slice_get};
ghost use Rattle.lanes.specs.Plans.{lanes_where, TestsAs};

use super::LanePlan;
use crate::record::LaneRecord;
use toll::Toll;

impl<'a, T: Toll> LanePlan<'a, T> {
    /// The k-th lane whose record passes the test, by rising lane number.
    pub(super) fn nth_lane<F: Fn(&LaneRecord<T>) -> bool>(&self, test: F, k: u16) -> Option<u16>
        requires { F.IsAlwaysCallable test }
        ensures { (p : LaneRecord T → Bool) → TestsAs F.Fn test p → result ≡ slice_get (lanes_where p self.now.lanes.now) k }
    {
        self.lanes
            .iter()
            .enumerate()
            .filter(move |(_, lane)| test(lane))
            .map(|(number, _)| number as u16)
            .nth(usize::from(k))
    }
}
