//! Accepts connections in a thread of their own.

ghost use Rattle.std.specs.Prelude.{◌≡◌, true, Contains, IsTrue, false, IsFalse, Ok, IfErr, IfNone, IfOk};
ghost use Rattle.std.specs.Prelude.{IfSome, vec_items};
ghost use Rattle.tn_net.specs.network.Asked.{AcceptsAtOne};
ghost use Rattle.tn_serve.specs.Ends.{AcceptsUntil, AreEnough, IsBroken};

use crate::events::Event;
use crate::hosts::shown;
use crate::proxied::peer_behind;
use crate::until::Until;
use crossbeam_channel::{Receiver, RecvTimeoutError, Sender};
use libc::net as c;
use libc::types::pollfd;
use std::alloc::{AllocError, Global};
use std::io::ErrorKind;
use std::net::{TcpListener, TcpStream};
use std::os::fd::AsRawFd;
use std::snapshot::Snapshot;
use std::thread::{Promise, PromisedHandle};
use std::time::Duration;
use std::{io, thread};
use tn_net::Host;
use tn_net::network::{Network, Peer};

/// The number of milliseconds between two attempts if the machine can give no connection.
const PAUSE: u64 = 100;

/// The number of milliseconds for which a connection is waited for, before it is asked again
/// whether one is to come.
const LOOK: i32 = 1_000;

/// A thread's work: it accepts `count` connections, or fewer if it is asked to stop, and sends each
/// on. After the last it asks whether the server is to end, until `over` is closed.
#[derive(Drop)]
pub(crate) struct Acceptor<H, U> {
    pub(crate) rt: H,
    pub(crate) listeners: Vec<TcpListener>,
    pub(crate) events: Sender<Event, Global>,
    pub(crate) over: Receiver<(), Global>,
    pub(crate) count: u64,
    /// Whether each connection is of a proxy, and begins with the line that names its client.
    pub(crate) is_proxied: bool,
    /// Whether others have the listeners too, and go on with them.
    pub(crate) is_handed: bool,
    pub(crate) until: U,
}

/// A connection that was accepted, and its client.
#[derive(Drop)]
struct Came {
    stream: (TcpStream, Peer),
    whom: Peer,
}

/// The number of connections that were accepted.
#[derive(Clone, Copy)]
pub(crate) struct Accepted {
    pub(crate) count: u64,
    /// Whether `until` reported that no more are to come.
    pub(crate) is_told: bool,
}

impl Accepted {
    // Makes the count of connections that were accepted before `until` reported anything.
    fn untold(count: u64) -> Accepted
        ensures count { result.count ≡ count }
        ensures untold { IsFalse result.is_told }
    {
        Accepted {
            count,
            is_told: false,
        }
    }

    /// Returns whether these are all of `count`, or no more are to come.
    pub(crate) fn are_enough(self, count: u64) -> bool
        ensures { IsTrue result → AreEnough count self }
    {
        if self.is_told {
            return self.count <= count;
        }
        self.count == count
    }
}

/// The promise of the thread that accepts: the number of connections for which each listener was
/// asked, and whether `until` reported that no more are to come.
#[derive(Drop)]
pub(crate) struct AcceptorSays<H, U> {
    pub(crate) rt: Snapshot<H>,
    pub(crate) listeners: Snapshot<Vec<TcpListener>>,
    pub(crate) until: Snapshot<U>,
}

impl<H: Network, U: Until> Promise<Accepted> for AcceptorSays<H, U> {
    ghost use Rattle.std.specs.Prelude.{vec_items};
    ghost use Rattle.tn_net.specs.network.Asked.{AcceptsAtOne};
    ghost use Rattle.tn_serve.specs.Ends.{AcceptsUntil};

    ghost kept_by = { λ p accepted. AcceptsUntil
        (AcceptsAtOne (H.accepts p.rt.value) (vec_items p.listeners.value)) (U.ends p.until.value) accepted };
}

impl<H: Host + Network, U: Until + Drop + Send + 'static> Acceptor<H, U> {
    /// Starts the acceptor in a thread of its own, if one can be had.
    pub(crate) fn start(
        self,
        waiting: Waiting,
    ) -> Option<PromisedHandle<Accepted, AcceptorSays<H, U>>>
        ensures rt { IfSome result (λ handle. handle.promise.rt.value ≡ self.rt) }
        ensures listeners { IfSome result (λ handle. handle.promise.listeners.value ≡ self.listeners) }
        ensures until { IfSome result (λ handle. handle.promise.until.value ≡ self.until) }
    {
        let rt = self.rt;
        let promise = AcceptorSays {
            rt: Snapshot::of(&rt),
            listeners: Snapshot::of(&self.listeners),
            until: Snapshot::of(&self.until),
        };
        let work = move || -> Accepted
            ensures { AcceptsUntil (AcceptsAtOne (H.accepts self.rt) (vec_items self.listeners))
                (U.ends self.until) result }
        { self.run(waiting) };
        match thread::spawn_with(&rt, promise, work) {
            Ok(handle) => Some(handle),
            Err(_) => None,
        }
    }

    // Runs until the last connection was accepted, none is to come any more, a listener is broken,
    // or the other end of the channel is gone. The files of listeners at paths are gone then.
    fn run(self, waiting: Waiting) -> Accepted
        ensures { AcceptsUntil (AcceptsAtOne (H.accepts self.rt) (vec_items self.listeners))
            (U.ends self.until) result }
    {
        let accepted = self.accept_all(waiting);
        if !self.is_handed {
            remove_files(&self.rt, &self.listeners);
        }
        accepted
    }

    fn accept_all(&self, waiting: Waiting) -> Accepted
        ensures { AcceptsUntil (AcceptsAtOne (H.accepts self.now.rt) (vec_items self.now.listeners))
            (U.ends self.now.until) result }
    {
        let mut waiting = waiting;
        let mut spare = self.spare();
        for number in 0..self.count {
            let Ok(next) = self.next(number, &mut waiting, &mut spare) else {
                let _ = self.events.send(&self.rt, Event::Closed);
                return Accepted::untold(number);
            };
            let Some(Came { stream, whom }) = next else {
                return self.close(number);
            };
            if self
                .events
                .send(&self.rt, Event::Came(stream.0, shown(whom)))
                .is_err()
            {
                return Accepted::untold(number);
            }
        }
        self.wait_for_end();
        Accepted::untold(self.count)
    }

    // Sends on that the server is to end, if `until` reports so before it has ended.
    fn wait_for_end(&self) {
        for _ in self.rt.forever() {
            let is_told = self.until.is_over();
            if is_told {
                let _ = self.events.send(&self.rt, Event::Closed);
                return;
            }
            match self
                .over
                .recv_timeout(&self.rt, Duration::from_millis(LOOK as u64))
            {
                Err(RecvTimeoutError::Timeout) => {},
                _ => return,
            }
        }
    }

    // Takes no more connections: also those that wait are refused, unless others go on with the listeners.
    fn close(&self, count: u64) -> Accepted
        ensures count { result.count ≡ count }
    {
        if !self.is_handed {
            shut(&self.listeners);
        }
        let _ = self.events.send(&self.rt, Event::Closed);
        Accepted {
            count,
            is_told: true,
        }
    }

    // Returns the connection of this number, or `None` if `until` reports that none is to come any
    // more. One that its peer closed before it was accepted is skipped. If the machine has no
    // descriptor but the spare one, the connection gets the line `full`. If it has no memory, or
    // not even that descriptor, this is reported once, and the call tries again after a pause. It
    // fails if a listener is broken.
    fn next(
        &self,
        number: u64,
        waiting: &mut Waiting,
        spare: &mut Option<TcpListener>,
    ) -> io::Result<Option<Came>>
        ensures came { IfOk result (λ next. IfSome next (λ came. AcceptsAtOne
            (H.accepts self.now.rt) (vec_items self.now.listeners) number (Ok came.stream))) }
        ensures told { IfOk result (λ next. IfNone next (U.ends self.now.until)) }
        ensures broken { IfErr result IsBroken }
    {
        let mut is_starved = false;
        for _ in self.rt.forever() {
            if self.until.is_over() {
                return Ok(None);
            }
            let Some(listener) = self.called(waiting) else {
                continue;
            };
            match self.rt.accept(listener, number) {
                Ok(stream) => {
                    if let Some(whom) = self.whom(&stream.0, stream.1) {
                        return Ok(Some(Came { stream, whom }));
                    }
                },
                Err(error) if is_passing(error.kind()) => {},
                Err(error) if is_broken(&error) => return Err(error),
                Err(error) => {
                    if !self.refuse(listener, number, spare, &error) {
                        self.starve(error, is_starved);
                        is_starved = true;
                    }
                },
            }
        }
        Err(io::Error::from_raw_os_error(libc::EBADF))
    }

    // Returns the listener at which a connection waits, if one comes soon.
    fn called(&self, waiting: &mut Waiting) -> Option<&TcpListener>
        ensures { IfSome result (λ listener. Contains (vec_items self.now.listeners) listener.now) }
    {
        let place = waiting.next()?;
        self.listeners.get(place)
    }

    // Opens one more descriptor, which is given up if there is no other.
    fn spare(&self) -> Option<TcpListener> {
        let listener = self.listeners.first()?;
        self.rt.share(listener).ok()
    }

    // Returns the client of this connection from `peer`. It returns `None`, and reports it, if a
    // proxy does not name the client.
    fn whom(&self, stream: &TcpStream, peer: Peer) -> Option<Peer> {
        if !self.is_proxied {
            return Some(peer);
        }
        let whom = peer_behind(&self.rt, stream, peer);
        if whom.is_none() {
            let _ = self.events.send(&self.rt, Event::Unproxied(shown(peer)));
        }
        whom
    }

    // Accepts the connection that waits in place of the spare descriptor, sends it `full` and
    // closes it after a pause. It returns false if there is no such descriptor, or another thread
    // took it.
    fn refuse(
        &self,
        listener: &TcpListener,
        number: u64,
        spare: &mut Option<TcpListener>,
        error: &io::Error,
    ) -> bool {
        let was_there = is_without_descriptor(error) && spare.take().is_some();
        let accepted = if was_there {
            self.rt.accept(listener, number).ok()
        } else {
            None
        };
        let is_told = match accepted {
            Some((stream, peer)) => {
                self.turn_away(stream, peer, error);
                true
            },
            None => false,
        };
        if spare.is_none() {
            *spare = self.spare();
        }
        is_told
    }

    fn turn_away(&self, stream: TcpStream, peer: Peer, error: &io::Error) {
        let told = self.rt.dismiss(stream, b"full\r\n");
        thread::sleep(&self.rt, Duration::from_millis(PAUSE));
        drop(told);
        let cause = io::Error::from_raw_os_error(error.raw_os_error().unwrap_or(0));
        let _ = self
            .events
            .send(&self.rt, Event::Refused(shown(peer), cause));
    }

    // Waits for a while, since the machine can give no connection. The first time, this is
    // reported.
    fn starve(&self, error: io::Error, is_told: bool) {
        if !is_told {
            let _ = self.events.send(&self.rt, Event::Starved(error));
        }
        thread::sleep(&self.rt, Duration::from_millis(PAUSE));
    }
}

/// The listeners for which the system is asked whether a connection waits.
#[derive(Drop)]
pub(crate) struct Waiting {
    sockets: Vec<pollfd>,
    /// The listener at which one waited last.
    last: usize,
}

impl Waiting {
    /// Makes the poll for a connection at each of these listeners. A socket that is a connection
    /// can be written to.
    pub(crate) fn new(alloc: Global, listeners: &[TcpListener]) -> Result<Waiting, AllocError> {
        let mut sockets = Vec::new(alloc);
        for listener in listeners {
            sockets.push(pollfd {
                fd: listener.as_raw_fd(),
                events: c::POLLIN | c::POLLOUT,
                revents: 0,
            })?;
        }
        Ok(Waiting { sockets, last: 0 })
    }

    // Returns the place of a listener at which a connection waits: of several the next after the
    // last. It returns `None` if none comes for a while.
    fn next(&mut self) -> Option<usize> {
        if c::poll(self.sockets.as_mut_slice(), LOOK) <= 0 {
            return None;
        }
        let after = self.last.saturating_add(1);
        let place = ready_from(&self.sockets, after).or(ready_from(&self.sockets, 0))?;
        self.last = place;
        Some(place)
    }
}

fn ready_from(sockets: &[pollfd], first: usize) -> Option<usize> {
    for place in first..sockets.len() {
        if sockets[place].revents != 0 {
            return Some(place);
        }
    }
    None
}

fn shut(listeners: &[TcpListener]) {
    for listener in listeners {
        let _ = c::shutdown(listener.as_raw_fd(), c::SHUT_RDWR);
    }
}

/// Removes the files of those of these listeners that are at paths.
pub(crate) fn remove_files<N: Network>(net: &N, listeners: &[TcpListener]) {
    for listener in listeners {
        net.remove(listener);
    }
}

fn is_passing(kind: ErrorKind) -> bool {
    matches!(
        kind,
        ErrorKind::ConnectionAborted | ErrorKind::ConnectionReset | ErrorKind::Interrupted
    )
}

// Returns whether the process has as many descriptors as it may.
fn is_without_descriptor(error: &io::Error) -> bool {
    error.raw_os_error() == Some(libc::EMFILE)
}

// Returns whether the listener takes no connection, and never will.
fn is_broken(error: &io::Error) -> bool
    ensures { IsTrue result → IsBroken error.now }
{
    matches!(
        error.raw_os_error(),
        Some(libc::EBADF | libc::EINVAL | libc::ENOTSOCK)
    )
}
