//! Credits, which bound the messages that wait. One piece at a time comes from the network: the
//! terminal gives a credit once one more piece is welcome, and the thread that reads takes one
//! before it sends a piece. The text of background jobs that waits for the terminal is bounded too:
//! their thread takes a credit for each step, and the terminal gives one back for each step that it
//! takes. So few messages pass a key, however fast these jobs are.

ghost use Rattle.std.specs.Prelude.{◌≡◌, ◌≤◌, ◌<◌, ◌+◌, true, IsTrue, false, IsFalse, length, IfOk};
ghost use Rattle.crossbeam_channel.specs.{Claims.{view, IsSeatAt}, Ends.sends_on};
ghost use Rattle.tn_server.specs.Lines.{waiting};
ghost use Rattle.tn_session.specs.{Credits.AreNewCredits, workers.Credits.{owed_one, piece_one, step_one}};
ghost use Rattle.tn_cores.specs.server.{Reaching.LeadsTo, Run.Run, Welcoming.{HasRoom, IsCrowded}};

use crate::workers::{
    Credit, CreditPass, CreditSeat, CreditSender, CreditTally, CutReader, Freely, Gives, Mail,
    Sender, StepCredits,
};
use crossbeam_channel::bounded_with;
use std::alloc::{AllocError, Global};
use std::sync::Wait;
use tn_cores::Message;
use tn_cores::server::Term;

/// The number of credits for pieces.
pub(crate) const CREDITS: usize = 1;

/// The number of steps of background jobs that may be sent and not yet taken by the terminal: half
/// of what the mailbox holds, so that it is never full.
const STEPS_AHEAD: u8 = 32;

/// The end of the channel at which the terminal gives credits for steps.
#[derive(Drop)]
pub(crate) struct CreditGiver {
    pub(crate) to: CreditSender,
    pub(crate) pass: CreditPass,
}

impl CreditGiver {
    /// Gives one credit for this message if a step of a background job sent it. A credit for which
    /// no thread waits any more is lost; the channel has room for each.
    pub(crate) fn give_for<R: Wait>(&mut self, rt: &R, mail: &Mail)
        requires seat { IsSeatAt (sends_on self.old.to) self.old.pass }
        ensures seat { IsSeatAt (sends_on self.new.to) self.new.pass }
        ensures counted { length (view self.new.pass).given ≤
            length (view self.old.pass).given + step_one mail.now.from mail.now.message }
    {
        if is_step(mail) {
            self.give(rt);
        }
    }

    fn give<R: Wait>(&mut self, rt: &R)
        requires seat { IsSeatAt (sends_on self.old.to) self.old.pass }
        ensures seat { IsSeatAt (sends_on self.new.to) self.new.pass }
        ensures counted { length (view self.new.pass).given
            ≤ length (view self.old.pass).given + 1 }
    {
        match self.to.send_as::<Gives, R>(rt, &mut self.pass, Credit) {
            Ok(()) | Err(_) => {},
        }
    }
}

fn is_step(mail: &Mail) -> bool
    ensures { owed_one result ≡ step_one mail.now.from mail.now.message }
{
    match (mail.from, &mail.message) {
        (Sender::Back, Message::Said { .. }) => true,
        _ => false,
    }
}

/// Makes both ends of the credits for steps.
pub(crate) fn make_step_credits(alloc: Global) -> Result<(CreditGiver, StepCredits), AllocError>
    ensures { IfOk result (λ r. AreNewCredits r.0 r.1) }
{
    let (to, from, mut pass) = bounded_with::<Credit, CreditTally, Freely, Global>(
        alloc,
        STEPS_AHEAD as usize,
    )?;
    let taken = to.another::<CutReader>(&mut pass);
    let seat = CreditSeat { from, pass: taken };
    let credits = StepCredits {
        left: STEPS_AHEAD,
        seat,
    };
    Ok((CreditGiver { to, pass }, credits))
}

pub(crate) fn is_piece(message: &Message) -> bool
    ensures { owed_one result ≡ piece_one message.now }
{
    match message {
        Message::Piece(_) => true,
        _ => false,
    }
}

/// Gives the credit that is owed, if one is and a piece is welcome. It returns whether a credit is
/// owed still. A credit for which no thread waits any more is lost.
pub(crate) fn give_credit<R: Wait>(
    rt: &R,
    credits: &CreditSender,
    pass: &mut CreditPass,
    owed: bool,
    term: &Term,
) -> bool
    requires seat { IsSeatAt (sends_on credits.now) pass.old }
    ensures seat { IsSeatAt (sends_on credits.now) pass.new }
    ensures given { (c : Run) → LeadsTo c term.now → IsTrue owed → IsFalse result →
        IsFalse term.now.progress.over → HasRoom (waiting c.history) }
    ensures kept { (c : Run) → LeadsTo c term.now → IsTrue result → IsCrowded (waiting c.history) }
    ensures over { IsTrue term.now.progress.over → IsFalse result }
    ensures none { IsFalse owed → IsFalse result }
    ensures counted { length (view pass.new).given + owed_one result ≤
        length (view pass.old).given + owed_one owed }
{
    if !owed || !term.is_welcoming() {
        return owed;
    }
    match credits.send_as::<Gives, R>(rt, pass, Credit) {
        Ok(()) | Err(_) => false,
    }
}
