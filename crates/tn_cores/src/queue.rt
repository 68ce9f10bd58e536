//! A channel into which one side puts and from which one side takes, under a rule: the entries that
//! were taken, and then those that the channel holds, are those that were put.
//!
//! Begin with `Hand`, which lists the entries of one side, and `InTurn`, the rule.
//!
//! ```
//! let (to, from, mut pass) = bounded_with::<T, Hand<T>, InTurn, Global>(alloc, 2)?;
//! let taker = to.another::<CutTaker>(&mut pass); // goes to the one that takes
//! to.send_as::<Puts, R>(&rt, &mut pass, message)?;
//! ```
//!
//! A pass has the list of its role. Once both are joined, the rule gives what is left in the
//! channel.

ghost use Rattle.std.specs.Prelude.{◌≡◌, Option, None};
ghost use Rattle.tn_cores.specs.queue.Queue.{InOrder, LeftOver, both_hands, joined_hands, no_hand, put_more};
ghost use Rattle.tn_cores.specs.{queue.Queue.{slot, taken_more}, streams.Seats.Kept};

use crossbeam_channel::protocol::{Join, Lesson, Outcome, Protocol, Split};
use crossbeam_channel::{Pass, RuledReceiver, RuledSender};
use std::collections::LinkedList;

/// The entries that a pass has put and taken; none of a role that is another pass's. No value of it
/// is made.
pub struct Hand<T> {
    pub put: Option<LinkedList<T>>,
    pub taken: Option<LinkedList<T>>,
}

/// The rule: messages are taken in the order in which they were put, each once.
pub struct InTurn;

impl<T: Drop> Protocol<T, Hand<T>> for InTurn {
    ghost holds = { Kept slot InOrder };

    ghost first = { both_hands };
}

/// A message is put.
pub struct Puts;

impl<T: Drop> Outcome<T, Hand<T>> for Puts {
    ghost then = { λ v x w. w ≡ put_more v x };
}

impl<T: Drop> Lesson<T, Hand<T>> for Puts {
    ghost fact = { LeftOver };
}

/// A message is taken.
pub struct Takes;

impl<T: Drop> Outcome<T, Hand<T>> for Takes {
    ghost then = { λ v x w. w ≡ taken_more v x };
}

impl<T: Drop> Lesson<T, Hand<T>> for Takes {
    ghost fact = { LeftOver };
}

/// The role of the one that takes is cut off.
pub struct CutTaker;

impl<T> Split<Hand<T>> for CutTaker {
    ghost left = { λ v. record v { taken = None } };

    ghost right = { λ v. record no_hand { taken = v.taken } };
}

/// The rule by which both roles are joined.
pub struct JoinHands;

impl<T> Join<Hand<T>> for JoinHands {
    ghost both = { joined_hands };

    ghost spent = { no_hand };
}

pub type QueuePass<T> = Pass<T, Hand<T>>;

pub type QueueSender<T> = RuledSender<T, Hand<T>, InTurn>;

pub type QueueReceiver<T> = RuledReceiver<T, Hand<T>, InTurn>;
