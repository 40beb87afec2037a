use crate::draw::Draw;
use crate::halls::some_hall;
use crate::plans::{some_lane, some_records};
use crate::random::Random;
use crate::relaxation::Relaxed;
use floor::Floor;
use lanes::LanePlan;
use planner::{Planner, Record};
use std::alloc::{AllocError, Global};
use std::{fmt, io};
use toll::{Gates, Refusal};

/// A floor has at most so many places; table and buffer are mostly longer than a floor needs.
const MOST_PLACES: usize = 1024;

/// What was compared, and how often the two programs disagreed.
#[derive(Default, Drop)]
struct Score {
    floors: u32,
    answered: u32,
    refused: u32,
    expanded: u32,
    differences: u32,
}

impl fmt::Display for Score {
    fn fmt<W: fmt::Write>(&self, f: &mut fmt::Formatter<W>) -> fmt::Result {
        writeln!(f, "{} compared", self.floors)?;
        writeln!(
            f,
            "  routes: {} answered, {} refused for want of a way",
            self.answered, self.refused
        )?;
        writeln!(f, "  places expanded: {}", self.expanded)?;
        write!(f, "  differences: {}", self.differences)
    }
}

impl Score {
    /// Plans on a floor by both programs, and scores whether they agree.
    fn compare_route<T: Draw, F: Floor<Toll = T>>(
        &mut self,
        alloc: Global,
        floor: &F,
        target: u16,
        from: u16,
    ) -> Result<(), AllocError> {
        let relaxed = Relaxed::of(alloc, floor, target)?;
        let mut table = vec![in alloc; Record::blank(); MOST_PLACES]?;
        let mut way = vec![in alloc; 0; MOST_PLACES]?;
        let (mut planner, slip) = Planner::make(
            &mut table,
            floor,
            u32::from(target),
            u32::from(from),
        );
        let agrees = match planner.route(floor, slip, &mut way) {
            Ok((_, route)) => {
                self.answered = self.answered.saturating_add(1);
                self.expanded = self.expanded.saturating_add(route.count);
                relaxed.agrees(&route, &way, from)
            }
            Err((_, why)) => {
                self.refused = self.refused.saturating_add(1);
                why == Refusal::NoWay && relaxed.toll(from).is_none()
            }
        };
        if !agrees {
            self.differences = self.differences.saturating_add(1);
        }
        Ok(())
    }

    /// Compares three routes on a floor.
    fn compare_floor<T: Draw, F: Floor<Toll = T>>(
        &mut self,
        alloc: Global,
        random: &mut Random,
        floor: &F,
    ) -> Result<(), AllocError> {
        for _ in 0..3u8 {
            let target = random.short(floor.places());
            let from = random.short(floor.places());
            self.compare_route(alloc, floor, target, from)?;
        }
        self.floors = self.floors.saturating_add(1);
        Ok(())
    }

    /// Compares routes on fresh halls.
    fn of_halls(alloc: Global, random: &mut Random, halls: u32) -> Result<Score, AllocError> {
        let mut score = Score::default();
        for _ in 0..halls {
            let rows = random.below(9).saturating_add(1);
            let columns = random.below(9).saturating_add(1);
            if let Ok(hall) = some_hall(random, rows, columns) {
                score.compare_floor(alloc, random, &hall)?;
            }
        }
        Ok(score)
    }

    /// Compares routes on fresh lane plans.
    fn of_plans(alloc: Global, random: &mut Random, plans: u32) -> Result<Score, AllocError> {
        let mut score = Score::default();
        for _ in 0..plans {
            let places = random.short(12).saturating_add(1);
            // One lane is drawn and let go, so that the numbers after it stay those of the stored output.
            let _ = some_lane::<Gates>(random, places);
            let mut records = some_records::<Gates>(alloc, random, places)?;
            let plan = LanePlan::make(u32::from(places), &mut records);
            score.compare_floor(alloc, random, &plan)?;
        }
        Ok(score)
    }
}

/// Compares single routes on 400 halls and on 400 lane plans, and prints both scores.
pub fn compare_routes(rt: &impl Print, alloc: Global, random: &mut Random) -> io::Result<()> {
    println!(rt; "halls: {}", Score::of_halls(alloc, random, 400)?)?;
    println!(rt; "lane plans: {}", Score::of_plans(alloc, random, 400)?)
}
