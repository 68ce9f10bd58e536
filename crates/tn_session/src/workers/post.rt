//! The calls by which a session's threads send and take.

ghost use Rattle.std.specs.Prelude.{◌≡◌, ◌+◌, List, Option, [], ◌++◌, ◌∷◌, IfSome, length};
ghost use Rattle.crossbeam_channel.specs.{Claims.{view, IsSeatAt}, Ends.{sends_on, receives_on}};
ghost use Rattle.tn_discipline.specs.declared.reads.Entry.{Entry as EntryT};
ghost use Rattle.tn_cores.specs.queue.Queue.{taker};
ghost use Rattle.tn_session.specs.workers.{Mailbox.{sender, mail as mail_of}, Stops.TakesStop};
ghost use Rattle.tn_session.specs.declared.workers.{mail.Mail.Mail as MailT, stops.Stop.Stop as StopT};

use crate::workers::channels::{MailPass, MailSender};
use crate::workers::credit::CreditSeat;
use crate::workers::entries::{EntryPass, EntryReceiver};
use crate::workers::mail::Sender;
use crate::workers::stops::StopSeat;
use tn_cores::Message;
use tn_discipline::Entry;

/// The calls by which a thread sends and takes. Each may wait for another thread; `None` means that
/// the other end is gone.
pub trait Post {
    /// Sends one message.
    fn say(&self, to: &MailSender, pass: &mut MailPass, who: Sender, message: Message) -> Option<()>
        requires seat { IsSeatAt (sends_on to.now) pass.old }
        requires role { (l : List MailT) × (view pass.old ≡ sender who l) }
        ensures seat { IsSeatAt (sends_on to.now) pass.new }
        ensures said { IfSome result (λ _. (l : List MailT) → view pass.old ≡ sender who l →
            view pass.new ≡ sender who (l ++ mail_of who message ∷ [])) };

    /// Takes one entry or the end.
    fn next_entry(&self, from: &EntryReceiver, hand: &mut EntryPass) -> Option<Option<Entry>>
        requires seat { IsSeatAt (receives_on from.now) hand.old }
        requires role { (l : List (Option EntryT)) × (view hand.old ≡ taker l) }
        ensures seat { IsSeatAt (receives_on from.now) hand.new }
        ensures took { IfSome result
            (λ entry. (l : List (Option EntryT)) → view hand.old ≡ taker l →
            view hand.new ≡ taker (l ++ entry ∷ [])) };

    /// Takes a credit.
    fn take_credit(&self, seat: &mut CreditSeat) -> Option<()>
        requires seat { IsSeatAt (receives_on seat.old.from) seat.old.pass }
        ensures seat { IsSeatAt (receives_on seat.new.from) seat.new.pass }
        ensures taken { IfSome result (λ _.
            length (view seat.new.pass).taken ≡ length (view seat.old.pass).taken + 1) };

    /// Takes the word to stop, if it was sent before the call: it does not wait.
    fn take_stop(&self, seat: &mut StopSeat) -> bool
        requires seat { IsSeatAt (receives_on seat.old.from) seat.old.pass }
        requires role { (l : List StopT) × (view seat.old.pass ≡ taker l) }
        ensures seat { IsSeatAt (receives_on seat.new.from) seat.new.pass }
        ensures from { seat.new.from ≡ seat.old.from }
        ensures took { TakesStop result (view seat.old.pass) (view seat.new.pass) };
}
