//! The queue of what waits to be sent, of which `None` is the end: one puts and one takes.

use std::marker::Brand;
pub use tn_cores::queue::{Hand, InTurn};
pub(crate) use tn_cores::queue::{CutTaker, JoinHands, Puts, Takes};
use tn_cores::queue::{QueuePass, QueueReceiver, QueueSender};

/// A piece that is put: some bytes, or the end.
pub type Piece = Option<Vec<u8>>;

pub type PiecePass = QueuePass<Piece>;

pub type PieceSender = QueueSender<Piece>;

pub type PieceReceiver = QueueReceiver<Piece>;

/// One queue, for contracts: the table and the key of its channel, at which the passes of its ends are
/// seated.
pub trait Queue {
    ghost use Rattle.tn_net.specs.Queue.{PieceKey, PieceTable};

    ghost table: { PieceTable };

    ghost key: { PieceKey };
}

impl Queue for Brand {
    ghost use Rattle.tn_net.specs.Queue.{no_name};

    ghost table = { no_name.table_id };

    ghost key = { no_name };
}
