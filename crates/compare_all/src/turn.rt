//! One call of a list, and what comes of it.
use crate::calls::some_call;
use crate::ledger::{Ledger, count};
use crate::manner::Manner;
use crate::model::Model;
use crate::scene::Scene;
use crate::session::Session;
use crate::standing::Standing;
use floor::Floor;
use planner::{Answer, Call};
use std::alloc::{AllocError, Global};
use toll::Refusal;
use trial::{Draw, Random, Relaxed};

/// A call that is drawn: how it is made, and with what buffer.
#[derive(Drop)]
pub struct Turn<T> {
    pub call: Call<T>,
    pub manner: Manner,
    from: u32,
    /// What the buffer is filled with.
    mark: u16,
    lent: u16,
}

/// What a call answers and leaves: the buffer, the slip, and what stands around.
#[derive(PartialEq, Eq, Drop)]
pub struct Outcome<T> {
    pub answer: Answer<T>,
    pub buffer: Vec<u16>,
    pub standing: Standing,
    pub scene: Scene<T>,
}

fn some_manner(random: &mut Random) -> Manner {
    if random.below(3) == 0 {
        Manner::Direct
    } else {
        Manner::Served
    }
}

/// A number that no way has.
fn some_mark(random: &mut Random) -> u16 {
    random.short(60000).saturating_add(5000)
}

/// The length of the buffer that is lent: mostly enough, now and then too short.
fn some_length(random: &mut Random, places: u16) -> u16 {
    if random.below(15) == 0 {
        random.short(places)
    } else {
        places.saturating_add(random.short(8))
    }
}

impl<T: Draw> Turn<T> {
    pub fn drawn<F: Floor<Toll = T>>(random: &mut Random, floor: &F, model: &Model<T>) -> Self {
        Turn {
            call: some_call(random, floor, model.standing),
            manner: some_manner(random),
            from: model.standing.place(),
            mark: some_mark(random),
            lent: some_length(random, model.places),
        }
    }

    /// The buffer that is lent.
    pub fn buffer(&self, alloc: Global) -> Result<Vec<u16>, AllocError> {
        vec![in alloc; self.mark; usize::from(self.lent)]
    }

    /// Whether a refusal cannot come from a route or a step while slips and floor are in order.
    fn is_out_of_order(&self, answer: Answer<T>) -> bool {
        matches!(
            (self.call, answer),
            (
                Call::Route | Call::Step,
                Answer::Refused(Refusal::UnknownPlace | Refusal::OtherFloor | Refusal::BrokenWay)
            )
        )
    }

    /// Whether a run was made: the route is answered, or refused for want of a way or because the floor does not bear it out.
    fn has_run(&self, answer: Answer<T>) -> bool {
        matches!(
            (self.call, answer),
            (
                Call::Route,
                Answer::Route(_) | Answer::Refused(Refusal::NoWay | Refusal::BrokenWay)
            )
        )
    }

    /// Holds a change against the readings before and after.
    pub fn check_dropped(&self, before: &Scene<T>, outcome: &Outcome<T>, ledger: &mut Ledger) {
        if let (Call::Change { spot, toll }, Answer::Done) = (self.call, outcome.answer) {
            let after = &outcome.scene;
            count(&mut ledger.counts.dropped, before.left_until(after));
            let holds = before.drops_rightly(after, spot, toll);
            ledger.checks.dropped.note(holds);
        }
    }

    /// Holds a route's count and the tally's rise against the places that the model expanded.
    pub fn check_expanded(
        &self,
        before: &Scene<T>,
        outcome: &Outcome<T>,
        expanded: usize,
        ledger: &mut Ledger,
    ) {
        if self.has_run(outcome.answer) {
            count(&mut ledger.counts.expanded, expanded);
            let rise = outcome.scene.tally.saturating_sub(before.tally);
            let counted = match outcome.answer {
                Answer::Route(route) => route.count,
                _ => rise,
            };
            let holds = rise as usize == expanded && counted == rise;
            ledger.checks.expanded.note(holds);
        }
    }

    /// Whether a run agrees with plain relaxation: the route is answered exactly if there is a toll below shut, with that toll
    /// and a way of that toll, and the buffer behind it is untouched.
    fn agrees_with_relaxation(
        &self,
        relaxed: &Relaxed<T>,
        from: u16,
        outcome: &Outcome<T>,
    ) -> bool {
        let buffer = &outcome.buffer;
        let (agrees, length) = match outcome.answer {
            Answer::Route(route) => (relaxed.agrees(&route, buffer, from), route.length),
            _ => (relaxed.toll(from).is_none(), 0),
        };
        agrees
            && buffer
                .iter()
                .skip(usize::from(length))
                .all(|entry| *entry == self.mark)
    }

    /// Holds a call against what cannot come while slips and floor are in order, and a route against relaxation.
    pub fn check_order<F: Floor<Toll = T>>(
        &self,
        floor: &F,
        target: u16,
        outcome: &Outcome<T>,
        session: &mut Session<'_>,
    ) -> Result<(), AllocError> {
        let checks = &mut session.ledger.checks;
        checks.order.note(!self.is_out_of_order(outcome.answer));
        if self.has_run(outcome.answer)
            && let Ok(from) = u16::try_from(self.from)
        {
            let relaxed = Relaxed::of(session.alloc, floor, target)?;
            checks
                .relaxation
                .note(self.agrees_with_relaxation(&relaxed, from, outcome));
        }
        Ok(())
    }
}
