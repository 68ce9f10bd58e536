//! The thread that sends what a session writes.

ghost use Rattle.std.specs.Prelude.{◌≡◌, []};
ghost use Rattle.crossbeam_channel.specs.Claims.{view};
ghost use Rattle.tn_connect.specs.Sent.{IsDelivered};
ghost use Rattle.tn_cores.specs.queue.Queue.{taker};
ghost use Rattle.tn_net.specs.Logs.{logged};

use std::marker::PhantomData;
use std::net::TcpStream;
use std::thread::{Promise, PromisedHandle};
use std::{io, thread};
use tn_net::{Connection, Host, Logged, PiecePass, Queue, Sending, Sent, WriteLog};

/// A sender over a connection, which has sent nothing yet.
#[derive(Drop)]
pub(crate) struct Sender<H, Q: Queue> {
    pub(crate) sending: Sending<H, Logged<Connection<TcpStream>>, Q>,
    ghost taken: { view sending.pass ≡ taker [] },
    ghost sent: { logged sending.writer.log ≡ [] },
}

/// The result of sending: how it ended, the log of the bytes that the connection took, and the pass
/// of those that were taken from the queue.
#[derive(Drop)]
pub(crate) struct Delivered {
    pub(crate) sent: io::Result<Sent>,
    pub(crate) log: WriteLog,
    pub(crate) taker: PiecePass,
}

/// The promise of the thread that sends, about what it gives back.
#[derive(Drop)]
pub(crate) struct Delivers<Q: Queue> {
    of: PhantomData<Q>,
}

impl<Q: Queue> Promise<Delivered> for Delivers<Q> {
    ghost use Rattle.tn_connect.specs.Sent.{IsDelivered};

    ghost kept_by = { λ _ delivered. IsDelivered Q.table Q.key delivered };
}

impl<H: Host, Q: Queue + Send + 'static> Sender<H, Q> {
    /// Sends in a thread of its own, if one can be had.
    pub(crate) fn start(self, rt: H) -> Option<PromisedHandle<Delivered, Delivers<Q>>> {
        let work = move || -> Delivered
            ensures { IsDelivered Q.table Q.key result }
        { self.run() };
        thread::spawn_with(&rt, Delivers { of: PhantomData }, work).ok()
    }

    fn run(self) -> Delivered
        ensures { IsDelivered Q.table Q.key result }
    {
        let Sender { mut sending } = self;
        let sent = sending.run();
        let (writer, taker) = sending.into_parts();
        let (_, log) = writer.into_parts();
        Delivered { sent, log, taker }
    }
}
