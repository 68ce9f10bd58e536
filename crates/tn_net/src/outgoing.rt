//! The writing side of a client, whose bytes go out in a thread of their own, so that the client
//! reads on while the server does not.

ghost use Rattle.std.specs.Prelude.{◌≡◌, IfOk, None, OnErr, OnOk, Some, false, IsFalse, option_map, []};
ghost use Rattle.crossbeam_channel.specs.{Claims.{view, IsSeatAt}, Ends.sends_on};
ghost use Rattle.tn_cores.specs.queue.Queue.{put_more, putter, taker};
ghost use Rattle.tn_net.specs.Ends.{IsNew, IsSettled};
ghost use Rattle.tn_net.specs.Queue.{IsNamed, IsSeatIn, count_behind, has_end, put_bytes};

use crate::link::Link;
use crate::pieces::{
    CutTaker, Hand, InTurn, JoinHands, Piece, PiecePass, PieceReceiver, PieceSender, Puts, Queue,
    Takes,
};
use crate::sending::Sending;
use crate::trace::{Direction, Trace};
use crossbeam_channel::{Receiver, RecvTimeoutError, Sender, bounded, bounded_with};
use std::alloc::{AllocError, Global};
use std::io;
use std::io::{ErrorKind, Write};
use std::marker::PhantomData;
use std::sync::atomic::{AtomicUsize, Ordering};
use std::sync::{Arc, Wait};
use std::time::{Clock, Duration};
use tn_cores::streams::Finish;

/// The most writes of a session that wait, with their end. A piece of keys makes one write, and at
/// most 66 pieces are on their way once no more keys are read, so that only keys never fill it.
const MAX_WRITES: usize = 256;

/// The number of writes, and of bytes, beyond which no more keys are read while they wait.
const WRITES_MARK: usize = 128;

const BYTES_MARK: usize = 4_096;

/// The bytes that wait to be sent.
#[derive(Drop)]
pub(crate) struct Waiting {
    writes: AtomicUsize,
    bytes: AtomicUsize,
}

impl Waiting {
    fn add(&self, bytes: usize) {
        self.writes.fetch_add(1, Ordering::SeqCst);
        self.bytes.fetch_add(bytes, Ordering::SeqCst);
    }

    pub(crate) fn remove_bytes(&self, bytes: usize) {
        self.bytes.fetch_sub(bytes, Ordering::SeqCst);
    }

    pub(crate) fn remove_write(&self) {
        self.writes.fetch_sub(1, Ordering::SeqCst);
    }

    fn bytes(&self) -> usize {
        self.bytes.load(Ordering::SeqCst)
    }

    fn is_little(&self) -> bool {
        self.writes.load(Ordering::SeqCst) <= WRITES_MARK && self.bytes() <= BYTES_MARK
    }
}

/// A new queue: both of its ends, and their passes.
#[derive(Drop)]
pub struct NewQueue {
    pub(crate) to: PieceSender,
    pub(crate) from: PieceReceiver,
    pub(crate) pass: PiecePass,
    pub(crate) taker: PiecePass,
    waiting: Arc<Waiting, Global>,
    sent: Sender<(), Global>,
}

/// The writer of a session: its bytes wait for the thread that sends them. `Q` is the queue, for
/// contracts.
#[derive(Drop)]
pub struct Outgoing<H, Q: Queue> {
    rt: H,
    alloc: Global,
    to: PieceSender,
    pass: PiecePass,
    // The end was put.
    finished: bool,
    waiting: Arc<Waiting, Global>,
    trace: Trace<H>,
    at: PhantomData<Q>,
    ghost seated: { IsSeatAt (sends_on to) pass },
    ghost named: { IsNamed Q.table Q.key (sends_on to) },
    ghost alone: { (view pass).taken ≡ None },
    ghost ends: { option_map has_end (view pass).put ≡ Some finished },
    ghost last: { count_behind (view pass).put ≡ 0 },
}

/// Lets keys be read once little waits.
#[derive(Drop)]
pub struct Throttle<H> {
    rt: H,
    waiting: Arc<Waiting, Global>,
    sent: Receiver<(), Global>,
}

/// Makes a queue that is new, and the throttle that lets keys be read as it empties.
///
/// # Errors
///
/// - `AllocError`: there is no memory for the queue.
pub fn new_queue<H: Copy>(rt: H, alloc: Global) -> Result<(NewQueue, Throttle<H>), AllocError>
    ensures { IfOk result (λ r. IsNew r.0) }
{
    let (to, from, mut pass) = bounded_with::<Piece, Hand<Piece>, InTurn, Global>(
        alloc, MAX_WRITES,
    )?;
    let taker = to.another::<CutTaker>(&mut pass);
    let (sent, throttled) = bounded(alloc, 1)?;
    let waiting = Waiting {
        writes: AtomicUsize::new(0),
        bytes: AtomicUsize::new(0),
    };
    let waiting = Arc::new(alloc, waiting)?;
    let throttle = Throttle {
        rt,
        waiting: Arc::try_clone(&waiting)?,
        sent: throttled,
    };
    let queue = NewQueue {
        to,
        from,
        pass,
        taker,
        waiting,
        sent,
    };
    Ok((queue, throttle))
}

impl NewQueue {
    /// Returns the writer of a session, and the sender that sends its bytes by this writer over
    /// this link.
    ///
    /// # Errors
    ///
    /// - `AllocError`: one more handle of the waiting bytes cannot be made.
    pub fn sides<H: Copy, W, Q: Queue>(
        self,
        rt: H,
        alloc: Global,
        writer: W,
        link: Arc<Link, Global>,
        trace: Trace<H>,
    ) -> Result<(Outgoing<H, Q>, Sending<H, W, Q>), AllocError>
    where
        W: Drop,
        requires new { IsNew self }
        requires named { IsNamed Q.table Q.key (sends_on self.to) }
        ensures put { IfOk result (λ sides. view sides.0.pass ≡ putter []) }
        ensures taken { IfOk result (λ sides. view sides.1.pass ≡ taker []) }
        ensures writer { IfOk result (λ sides. sides.1.writer ≡ writer) }
    {
        let waiting = Arc::try_clone(&self.waiting)?;
        let NewQueue {
            to,
            from,
            pass,
            taker,
            waiting: theirs,
            sent,
        } = self;
        let sending = Sending {
            rt,
            writer,
            from,
            pass: taker,
            waiting: theirs,
            sent,
            link,
            at: PhantomData,
        };
        let outgoing = Outgoing {
            rt,
            alloc,
            to,
            pass,
            finished: false,
            waiting,
            trace,
            at: PhantomData,
        };
        Ok((outgoing, sending))
    }
}

impl<H: Copy + Wait, Q: Queue> Outgoing<H, Q> {
    /// Returns the number of bytes that wait to be sent.
    pub fn waiting(&self) -> usize {
        self.waiting.bytes()
    }

    /// Puts the end, unless it was put.
    pub fn end(&mut self)
        ensures { put_bytes (view self.new.pass) ≡ put_bytes (view self.old.pass) }
    {
        if !self.finished {
            let _ = self.put(None);
        }
    }

    // Puts this piece, if the other side is there to take it.
    fn put(&mut self, piece: Piece) -> io::Result<()>
        requires open { IsFalse self.old.finished }
        ensures put { OnOk result (view self.new.pass ≡ put_more (view self.old.pass) piece) }
        ensures kept { OnErr result (view self.new.pass ≡ view self.old.pass) }
    {
        let ends = piece.is_none();
        match self.to.send_as::<Puts, H>(&self.rt, &mut self.pass, piece) {
            Ok(()) => {
                self.finished = ends;
                Ok(())
            },
            Err(_) => Err(io::Error::from(ErrorKind::BrokenPipe)),
        }
    }

    /// Joins the pass of the side that took the pieces that were put by this one, so that their
    /// lists are compared.
    pub fn settle(self, taker: PiecePass) -> PiecePass
        requires seat { IsSeatIn Q.table Q.key taker }
        ensures { IsSettled (view self.pass) (view taker) (view result) }
    {
        let Outgoing { to, mut pass, .. } = self;
        to.absorb::<JoinHands>(&mut pass, taker);
        to.learn_as::<Takes>(&mut pass);
        pass
    }
}

impl<H: Clock + Copy + Wait, Q: Queue> Write for Outgoing<H, Q> {
    ghost contents = { λ outgoing. put_bytes (view outgoing.pass) };

    fn write(&mut self, buf: &[u8]) -> io::Result<usize> {
        if self.finished {
            return Err(io::Error::from(ErrorKind::BrokenPipe));
        }
        let mut piece = Vec::new(self.alloc);
        piece.extend_from_slice(buf)?;
        self.waiting.add(buf.len());
        self.trace.note(Direction::Went, buf);
        self.put(Some(piece))?;
        Ok(buf.len())
    }

    fn flush(&mut self) -> io::Result<()> {
        Ok(())
    }
}

impl<H: Clock + Copy + Wait, Q: Queue> Finish for Outgoing<H, Q> {
    fn finish(&mut self) {
        self.end();
    }
}

impl<H: Wait> Throttle<H> {
    // tools/progress: proctype ClientKeys
    /// Waits as long as more waits than the marks, and a thread sends it.
    pub fn wait(&self) {
        for _ in self.rt.forever() {
            if self.waiting.is_little() || self.sent.recv(&self.rt).is_err() {
                return;
            }
        }
    }
}

impl<H: Clock + Wait> Throttle<H> {
    /// Returns whether no keys are to be given: more waits than the marks, though this number of
    /// milliseconds were waited for some of it to be sent, and a thread sends it.
    pub(crate) fn holds(&self, milliseconds: u64) -> bool {
        if self.waiting.is_little() {
            return false;
        }
        let time = Duration::from_millis(milliseconds);
        match self.sent.recv_timeout(&self.rt, time) {
            Err(RecvTimeoutError::Disconnected) => false,
            _ => !self.waiting.is_little(),
        }
    }
}
