//! The word to stop, which a thread gets at most once: the one that reads the keys after its next
//! piece, and the one of the background jobs before its next step.

ghost use Rattle.std.specs.Prelude.{◌≡◌, ◌≢◌, ◌||◌, List, [], IsTrue, IfOk, IfSome};
ghost use Rattle.crossbeam_channel.specs.{Claims.{view, IsSeatAt}, Ends.sends_on};
ghost use Rattle.tn_cores.specs.queue.Queue.{putter};
ghost use Rattle.tn_session.specs.{workers.Stops.has_stopped, declared.workers.stops.Stop.Stop as StopT};
ghost use Rattle.tn_session.specs.Stops.{AreNewStops, IsTold};

use crate::workers::{Stop, StopPass, StopSeat};
use crossbeam_channel::bounded_with;
use std::alloc::{AllocError, Global};
use std::sync::{Arc, Wait};
use tn_cores::queue::{CutTaker, Hand, InTurn, JoinHands, Puts, QueueSender, Takes};

/// The seat of the thread that sends the word to stop.
#[derive(Drop)]
pub(crate) struct StopTeller {
    pub(crate) to: QueueSender<Stop>,
    pub(crate) pass: StopPass,
}

/// The gate of the thread that handles the messages, and the seat at which it asks another to stop.
#[derive(Drop)]
pub(crate) struct Watched<G> {
    pub(crate) gate: Arc<G, Global>,
    pub(crate) stops: StopTeller,
}

/// Makes both seats. No thread has been asked to stop.
pub(crate) fn make_stops(alloc: Global) -> Result<(StopTeller, StopSeat), AllocError>
    ensures { IfOk result (λ r. AreNewStops r.0 r.1) }
{
    let (to, from, mut pass) = bounded_with::<Stop, Hand<Stop>, InTurn, Global>(alloc, 1)?;
    let taken = to.another::<CutTaker>(&mut pass);
    Ok((StopTeller { to, pass }, StopSeat { from, pass: taken }))
}

impl StopTeller {
    /// Asks the thread to stop, if that is due and it was not asked before. It returns whether the
    /// thread was asked, by this call or before; `None` if the other end is gone. The channel has
    /// room for the one word.
    pub(crate) fn tell<R: Wait>(&mut self, rt: &R, is_due: bool, told: bool) -> Option<bool>
        requires seat { IsSeatAt (sends_on self.old.to) self.old.pass }
        requires word { IsTold told (view self.old.pass) }
        ensures seat { IsSeatAt (sends_on self.new.to) self.new.pass }
        ensures to { self.new.to ≡ self.old.to }
        ensures told { IfSome result (λ now. now ≡ (told || is_due)) }
        ensures word { IfSome result (λ now. IsTold now (view self.new.pass)) }
    {
        if told {
            return Some(true);
        }
        if !is_due {
            return Some(false);
        }
        match self.to.send_as::<Puts, R>(rt, &mut self.pass, Stop) {
            Ok(()) => Some(true),
            Err(_) => None,
        }
    }

    /// Joins both passes, so that what was taken is compared with what was put, and splits them again.
    pub(crate) fn settle(self, stops: Option<StopSeat>) -> StopPass
        requires teller { IsSeatAt (sends_on self.to) self.pass }
        requires told { (l : List StopT) × (view self.pass ≡ putter l) }
        requires seat { IfSome stops (λ s. IsSeatAt (sends_on self.to) s.pass) }
        ensures same { view result ≡ view self.pass }
        ensures told { IsTrue (has_stopped stops) → view self.pass ≢ putter [] }
    {
        let StopTeller { to, pass: mut put } = self;
        let Some(StopSeat { from: _, pass }) = stops else {
            return put;
        };
        to.absorb::<JoinHands>(&mut put, pass);
        to.learn_as::<Takes>(&mut put);
        to.another::<CutTaker>(&mut put);
        put
    }
}
