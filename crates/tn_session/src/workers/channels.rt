//! The rule of the mailbox.

ghost use Rattle.std.specs.Prelude.{◌≡◌, List, Option, Some, None, [], ◌++◌};
ghost use Rattle.tn_session.specs.workers.Mailbox.{Woven, share, grown, handed, everyone, nobody, union, Total};
ghost use Rattle.tn_cores.specs.streams.Seats.{Kept};
ghost use Rattle.tn_session.specs.workers.Mailbox as words;

use crate::workers::mail::Mail;
use crossbeam_channel::protocol::{Join, Lesson, Outcome, Protocol, Split};
use crossbeam_channel::{Pass, RuledReceiver, RuledSender};
use std::collections::LinkedList;

/// The facts of a pass: of each role that it has, the messages so far. No value of it is made.
pub struct View {
    pub handled: Option<LinkedList<Mail>>,
    pub net: Option<LinkedList<Mail>>,
    pub desk: Option<LinkedList<Mail>>,
    pub back: Option<LinkedList<Mail>>,
    pub keys: Option<LinkedList<Mail>>,
}

/// The rule: what was handled, and then what the mailbox holds, is an interleaving of what was sent.
pub struct AllRoles;

impl Protocol<Mail, View> for AllRoles {
    ghost holds = { Kept share Woven };

    ghost first = { everyone };
}

/// The facts that a pass of all roles gets.
pub struct Knows;

/// The outcome of a call that sends a message.
pub struct Sends;

impl Outcome<Mail, View> for Sends {
    ghost then = { λ v x w. w ≡ grown v x };
}

impl Lesson<Mail, View> for Sends {
    ghost fact = { λ v items. Unit {0} };
}

/// The outcome of a call that receives a message.
pub struct Handles;

impl Outcome<Mail, View> for Handles {
    ghost then = { λ v x w. w ≡ handed v x };
}

impl Lesson<Mail, View> for Handles {
    ghost fact = { Total };
}

impl Lesson<Mail, View> for Knows {
    ghost fact = { Total };
}

/// The role of the thread that reads from the network is cut off.
pub struct CutNet;

impl Split<View> for CutNet {
    ghost left = { λ v. record v { net = None } };

    ghost right = { λ v. record nobody { net = v.net } };
}

/// The role of the thread that runs the foreground job is cut off.
pub struct CutDesk;

impl Split<View> for CutDesk {
    ghost left = { λ v. record v { desk = None } };

    ghost right = { λ v. record nobody { desk = v.desk } };
}

/// The role of the thread that runs the background jobs is cut off.
pub struct CutBack;

impl Split<View> for CutBack {
    ghost left = { λ v. record v { back = None } };

    ghost right = { λ v. record nobody { back = v.back } };
}

/// The role of the thread that reads the keys is cut off.
pub struct CutKeys;

impl Split<View> for CutKeys {
    ghost left = { λ v. record v { keys = None } };

    ghost right = { λ v. record nobody { keys = v.keys } };
}

/// Two passes are joined.
pub struct Union;

impl Join<View> for Union {
    ghost both = { union };

    ghost spent = { nobody };
}

pub type MailPass = Pass<Mail, View>;

pub type MailSender = RuledSender<Mail, View, AllRoles>;

pub type MailReceiver = RuledReceiver<Mail, View, AllRoles>;

/// A seat at the mailbox: the end at which its holder sends, and the pass.
#[derive(Drop)]
pub struct MailSeat {
    pub to: MailSender,
    pub pass: MailPass,
}
