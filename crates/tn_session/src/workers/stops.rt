//! The word to stop, which a thread gets at most once: the one that reads the keys after its next
//! piece, and the one of the background jobs before its next step.

ghost use Rattle.std.specs.Prelude.{IsTrue};
ghost use Rattle.tn_session.specs.workers.Stops.{StopsStay, has_stopped};

use crate::workers::post::Post;
use tn_cores::queue::{QueuePass, QueueReceiver};

/// The word to stop.
#[derive(Drop)]
pub struct Stop;

pub type StopPass = QueuePass<Stop>;

/// The seat of the thread that is asked to stop.
#[derive(Drop)]
pub struct StopSeat {
    pub from: QueueReceiver<Stop>,
    pub pass: StopPass,
}

// Returns whether a thread is to stop: never if it has no seat.
pub(crate) fn is_stopped<P: Post>(post: &P, stops: &mut Option<StopSeat>) -> bool
    requires seat { StopsStay stops.old stops.old }
    ensures stays { StopsStay stops.old stops.new }
    ensures told { IsTrue result → IsTrue (has_stopped stops.new) }
{
    match stops {
        Some(seat) => post.take_stop(seat),
        None => false,
    }
}
