//! Lists of calls: each call is made by planner and model, and held against every check.
use crate::calls::some_number;
use crate::ledger::count;
use crate::manner::make_call;
use crate::model::Model;
use crate::picture::Picture;
use crate::scene::Scene;
use crate::session::Session;
use crate::standing::Standing;
use crate::turn::{Outcome, Turn};
use floor::Floor;
use planner::{Answer, Call, Carrier, Parked, Planner, Record};
use std::alloc::{AllocError, Global};
use toll::Toll;
use trial::{Draw, Random};

/// More places than a floor of a list has.
const PLACES: usize = 64;

/// The floors of a list.
#[derive(Drop)]
pub struct Floors<F> {
    /// The one that the planner is set up on.
    pub home: F,
    /// One of the same number of places, with other lanes and tolls.
    pub twin: F,
    /// One of another number of places.
    pub odd: F,
}

/// Which floor is shown to the calls.
#[derive(Clone, Copy, PartialEq, Eq)]
enum Shown {
    Home,
    Twin,
    Odd,
}

/// A list as it runs: planner and model side by side, and what has been exchanged.
#[derive(Drop)]
struct List<'t, T> {
    planner: Planner<'t, T>,
    model: Model<T>,
    shown: Shown,
    /// Whether the planner was set up, and every call so far was shown the home floor or was refused one of another size.
    is_at_home: bool,
    /// Whether the slip was handed out by this planner.
    has_own_slip: bool,
}

fn some_shown(random: &mut Random) -> Shown {
    match random.below(4) {
        0 => Shown::Odd,
        1 => Shown::Home,
        _ => Shown::Twin,
    }
}

/// How many records the table is to have: mostly more than enough, now and then too few.
fn some_table_size(random: &mut Random, places: u16) -> usize {
    if random.below(30) == 0 {
        usize::from(random.short(places))
    } else {
        PLACES
    }
}

/// A place to set up with; seldom it is none.
fn some_start(random: &mut Random, places: u16) -> u32 {
    if random.below(10) == 0 {
        some_number(random, places)
    } else {
        random.below(u32::from(places))
    }
}

/// A slip that another planner handed out: parked where the set-up was refused, or under way at the target of an odd floor.
fn stray<T: Draw, F: Floor<Toll = T>>(
    alloc: Global,
    random: &mut Random,
    odd: &F,
) -> Result<Carrier, AllocError> {
    let mut table = vec![in alloc; Record::blank(); PLACES]?;
    let mut way = vec![in alloc; 0; PLACES]?;
    let place = some_number(random, odd.places());
    let (mut planner, slip) = Planner::make(&mut table, odd, place, place);
    if random.below(2) == 0 {
        return Ok(Carrier::Parked(slip));
    }
    Ok(match planner.route(odd, slip, &mut way) {
        Ok((slip, _)) => Carrier::UnderWay(slip),
        Err((slip, _)) => Carrier::Parked(slip),
    })
}

impl<'t, T: Draw> List<'t, T> {
    /// Whether the floor was altered by change alone and the slip is the planner's own.
    fn is_in_order(&self) -> bool {
        self.is_at_home && self.has_own_slip && self.shown == Shown::Home
    }

    /// Keeps in mind what came of a call.
    fn mind(&mut self, call: Call<T>, answer: Answer<T>) {
        if self.shown == Shown::Twin {
            self.is_at_home = false;
        }
        if let (Call::Put(_), Answer::Done) | (Call::Route, Answer::Route(_)) = (call, answer) {
            self.has_own_slip = true;
        }
    }

    /// Has the model make the call, on its own picture of the floor and its own buffer.
    fn foresee<F: Floor<Toll = T>>(
        &mut self,
        alloc: Global,
        turn: &Turn<T>,
        floor: &F,
    ) -> Result<Outcome<T>, AllocError> {
        let mut picture = Picture::of(alloc, floor)?;
        let mut buffer = turn.buffer(alloc)?;
        let answer = self
            .model
            .call(floor, &mut picture, turn.call, &mut buffer)?;
        let readings = self.model.tree.readings.clone()?;
        Ok(Outcome {
            answer,
            buffer,
            standing: self.model.standing,
            scene: Scene {
                picture,
                readings,
                tally: self.model.tally,
            },
        })
    }

    /// Has the planner make the call.
    fn make<F: Floor<Toll = T>>(
        &mut self,
        alloc: Global,
        turn: &Turn<T>,
        floor: &mut F,
        carrier: Carrier,
    ) -> Result<(Carrier, Outcome<T>), AllocError> {
        let mut buffer = turn.buffer(alloc)?;
        let (carrier, answer) = make_call(
            &mut self.planner,
            floor,
            carrier,
            turn.call,
            turn.manner,
            &mut buffer,
        );
        let outcome = Outcome {
            answer,
            buffer,
            standing: Standing::from(&carrier),
            scene: Scene::of(alloc, &self.planner, floor)?,
        };
        Ok((carrier, outcome))
    }

    /// Draws a call, has model and planner make it, and checks what came of it.
    fn one_call<F: Floor<Toll = T>>(
        &mut self,
        session: &mut Session<'_>,
        floor: &mut F,
        carrier: Carrier,
    ) -> Result<Carrier, AllocError> {
        let alloc = session.alloc;
        let turn = Turn::drawn(session.random, floor, &self.model);
        let before = Scene::of(alloc, &self.planner, floor)?;
        let tree = self.model.tree.clone()?;
        let foreseen = self.foresee(alloc, &turn, floor)?;
        let (carrier, outcome) = self.make(alloc, &turn, floor, carrier)?;
        let ledger = &mut session.ledger;
        ledger.answer(outcome.answer)?;
        ledger.checks.rules.note(foreseen == outcome);
        turn.check_dropped(&before, &outcome, ledger);
        let expanded = self.model.tree.expanded_since(&tree);
        turn.check_expanded(&before, &outcome, expanded, ledger);
        if self.is_in_order() {
            turn.check_order(floor, self.model.target, &outcome, session)?;
        }
        self.mind(turn.call, outcome.answer);
        Ok(carrier)
    }

    /// Now and then shows another floor, or slips another planner's slip in.
    fn exchange<F: Floor<Toll = T>>(
        &mut self,
        session: &mut Session<'_>,
        odd: &F,
        carrier: Carrier,
    ) -> Result<Carrier, AllocError> {
        if session.random.below(10) == 0 {
            self.shown = some_shown(session.random);
            count(&mut session.ledger.counts.exchanged, 1);
        }
        if session.random.below(25) != 0 {
            return Ok(carrier);
        }
        let carrier = stray(session.alloc, session.random, odd)?;
        self.model.standing = Standing::from(&carrier);
        self.has_own_slip = false;
        count(&mut session.ledger.counts.strays, 1);
        Ok(carrier)
    }

    /// Runs the calls of the list. Half of the lists exchange floors and slips.
    fn run<F: Floor<Toll = T>>(
        &mut self,
        session: &mut Session<'_>,
        floors: &mut Floors<F>,
        slip: Parked,
    ) -> Result<(), AllocError> {
        let mut carrier = Carrier::Parked(slip);
        let wanders = session.random.below(2) == 0;
        for _ in 0..40u8 {
            if wanders {
                carrier = self.exchange(session, &floors.odd, carrier)?;
            }
            let floor = match self.shown {
                Shown::Home => &mut floors.home,
                Shown::Twin => &mut floors.twin,
                Shown::Odd => &mut floors.odd,
            };
            carrier = self.one_call(session, floor, carrier)?;
        }
        count(&mut session.ledger.counts.lists, 1);
        Ok(())
    }
}

/// Runs a list of calls with a planner that is set up on the home floor.
pub fn run_list<T: Draw, F: Floor<Toll = T>>(
    session: &mut Session<'_>,
    floors: &mut Floors<F>,
) -> Result<(), AllocError> {
    let alloc = session.alloc;
    let places = floors.home.places();
    let records = some_table_size(session.random, places);
    let target = some_start(session.random, places);
    let place = some_start(session.random, places);
    let mut table = vec![in alloc; Record::blank(); records]?;
    let answer = Planner::check(&table, &floors.home, target, place);
    if let Err(why) = answer {
        session.ledger.refuse(why)?;
    }
    let foreseen = Model::<T>::check(places, records, target, place);
    session.ledger.checks.rules.note(foreseen == answer);
    let (planner, slip) = Planner::make(&mut table, &floors.home, target, place);
    let mut list = List {
        planner,
        model: Model::make(alloc, places, records, target, place)?,
        shown: Shown::Home,
        is_at_home: answer.is_ok(),
        has_own_slip: true,
    };
    list.run(session, floors, slip)
}
