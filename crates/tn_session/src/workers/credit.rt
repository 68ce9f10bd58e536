//! Credits: a thread takes one for each piece that it sends, or for each step that it sends.

ghost use Rattle.std.specs.Prelude.{◌≡◌, IfSome};
ghost use Rattle.crossbeam_channel.specs.{Claims.IsSeatAt, Ends.receives_on};
ghost use Rattle.tn_session.specs.workers.Credits.{AnyTally, HaveTaken, HaveUsed, IsSeated, none_taken};
ghost use Rattle.tn_session.specs.workers.Credits.{one_given, one_taken};

use crate::workers::post::Post;
use crossbeam_channel::protocol::{Lesson, Outcome, Protocol, Split};
use crossbeam_channel::{Pass, RuledReceiver, RuledSender};
use std::collections::LinkedList;

/// The leave to send one piece, or one step.
#[derive(Drop)]
pub struct Credit;

/// The credits that a pass has taken and given. No value of it is made.
pub struct CreditTally {
    pub taken: LinkedList<Credit>,
    pub given: LinkedList<Credit>,
}

/// The rule: credits may be given and taken at any time. Each pass counts its own.
pub struct Freely;

impl Protocol<Credit, CreditTally> for Freely {
    ghost holds = { AnyTally };

    ghost first = { none_taken };
}

/// A credit is given.
pub struct Gives;

impl Outcome<Credit, CreditTally> for Gives {
    ghost then = { λ v x w. w ≡ one_given v x };
}

impl Lesson<Credit, CreditTally> for Gives {
    ghost fact = { λ v items. Unit {0} };
}

/// A credit is taken.
pub struct TakesOne;

impl Outcome<Credit, CreditTally> for TakesOne {
    ghost then = { λ v x w. w ≡ one_taken v x };
}

impl Lesson<Credit, CreditTally> for TakesOne {
    ghost fact = { λ v items. Unit {0} };
}

/// The pass of the one that takes is cut off.
pub struct CutReader;

impl Split<CreditTally> for CutReader {
    ghost left = { λ v. v };

    ghost right = { λ v. none_taken };
}

pub type CreditPass = Pass<Credit, CreditTally>;

pub type CreditSender = RuledSender<Credit, CreditTally, Freely>;

pub type CreditReceiver = RuledReceiver<Credit, CreditTally, Freely>;

/// The seat of the thread that takes credits: the end at which they come, and the pass.
#[derive(Drop)]
pub struct CreditSeat {
    pub from: CreditReceiver,
    pub pass: CreditPass,
}

// Waits for a credit if any is wanted. It returns `None` if the other end is gone.
pub(crate) fn take_credit<P: Post>(post: &P, credits: &mut Option<CreditSeat>) -> Option<()>
    requires seat { IsSeated credits.old }
    ensures seat { IsSeated credits.new }
    ensures taken { IfSome result (λ _. HaveTaken 1 credits.old credits.new) }
{
    match credits {
        Some(seat) => post.take_credit(seat),
        None => Some(()),
    }
}

/// The credits that the thread of the background jobs needs for its steps: the number that is left
/// of those that it has at first, and the end at which the others come.
#[derive(Drop)]
pub struct StepCredits {
    pub left: u8,
    pub seat: CreditSeat,
}

impl StepCredits {
    // Uses one credit, and waits for it if none is left. It returns `None` if the other end is
    // gone.
    pub(crate) fn take<P: Post>(&mut self, post: &P) -> Option<()>
        requires seat { IsSeatAt (receives_on self.old.seat.from) self.old.seat.pass }
        ensures seat { IsSeatAt (receives_on self.new.seat.from) self.new.seat.pass }
        ensures used { IfSome result (λ _. HaveUsed 1 self.old self.new) }
    {
        if self.left > 0 {
            self.left -= 1;
            return Some(());
        }
        post.take_credit(&mut self.seat)
    }
}
