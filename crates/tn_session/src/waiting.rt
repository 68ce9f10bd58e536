//! The calls of a session's threads, over their channels.

ghost use Rattle.std.specs.Prelude.{◌≡◌, ◌+◌, List, Option, [], ◌++◌, ◌∷◌, IfSome, length};
ghost use Rattle.crossbeam_channel.specs.{Claims.{view, IsSeatAt}, Ends.{sends_on, receives_on}};
ghost use Rattle.tn_discipline.specs.declared.reads.Entry.{Entry as EntryT};
ghost use Rattle.tn_cores.specs.queue.Queue.{taker};
ghost use Rattle.tn_session.specs.workers.{Mailbox.{sender, mail as mail_of}, Stops.TakesStop};
ghost use Rattle.tn_session.specs.declared.workers.{mail.Mail.Mail as MailT, stops.Stop.Stop as StopT};

use crate::workers::{
    Credit, CreditSeat, EntryPass, EntryReceiver, Mail, MailPass, MailSender, Post, Sender, Sends,
    Stop, StopSeat, TakesOne,
};
use std::sync::Wait;
use tn_cores::Message;
use tn_cores::queue::Takes;
use tn_discipline::Entry;

/// A thread that waits if a channel is full, and for what it takes.
#[derive(Clone, Copy)]
pub(crate) struct Waiting<R>(pub(crate) R);

impl<R: Wait> Post for Waiting<R> {
    fn say(
        &self,
        to: &MailSender,
        pass: &mut MailPass,
        who: Sender,
        message: Message,
    ) -> Option<()> {
        let mail = Mail { from: who, message };
        match to.send_as::<Sends, R>(&self.0, pass, mail) {
            Ok(()) => Some(()),
            Err(_) => None,
        }
    }

    fn next_entry(&self, from: &EntryReceiver, hand: &mut EntryPass) -> Option<Option<Entry>> {
        match from.recv_as::<Takes, R>(&self.0, hand) {
            Ok(entry) => Some(entry),
            Err(_) => None,
        }
    }

    fn take_credit(&self, seat: &mut CreditSeat) -> Option<()> {
        match seat.from.recv_as::<TakesOne, R>(&self.0, &mut seat.pass) {
            Ok(Credit) => Some(()),
            Err(_) => None,
        }
    }

    fn take_stop(&self, seat: &mut StopSeat) -> bool {
        match seat.from.try_recv_as::<Takes, R>(&self.0, &mut seat.pass) {
            Ok(Stop) => true,
            Err(_) => false,
        }
    }
}
