//! Gives each connection a session in threads of its own.

ghost use Rattle.std.specs.Prelude.{◌≡◌, ◌⊎◌, ◌<◌, ◌≤◌, ◌+◌, ◌^◌, ◌-◌, true, IsTrue, IfOk, IfSome, IfNone};
ghost use Rattle.std.specs.Prelude.{[], ◌∷◌, IsErrOf, Ok, map, vec_items, vec_len};
ghost use Rattle.tn_serve.specs.{Causes.{FailsBy, place_at}, Ends.{AreEnough, ServesUntil}};
ghost use Rattle.tn_serve.specs.Counted.{CountsSessions, HasEnded, StillCounts, facts_of, server_of};
ghost use Rattle.tn_serve.specs.Places.{AreHeld, AreHeldBeside, HasNoPlace, RunsAll, RunsOver, count_from};
ghost use Rattle.tn_serve.specs.Makers.{MakesOnly, StillMakes, TurnsAway, WasTurnedAway};
ghost use Rattle.tn_serve.specs.Turns.{HearsAll, HearsOfJobs, HearsOfNone, StillHears, live_of};
ghost use Rattle.tn_net.specs.network.Asked.{Accepts, GiveEach, Listens, at_place};
ghost use Rattle.tn_session.specs.roster.Held.{IsLimit, held_count};

use crate::acceptor::{Accepted, Acceptor, AcceptorSays, Waiting};
use crate::asked::Asked;
use crate::call::{Call, Notes};
use crate::caller::Caller;
use crate::draining::Drain;
use crate::events::Event;
use crate::fault::ServeFault;
use crate::finished::Finished;
use crate::listening::{At, listen_all};
use crate::note_texts;
use crate::note_texts::SessionEnd;
use crate::running::{Left, Running, Started};
use crate::served::Served;
use crate::service::Service;
use crate::session::Session;
use crate::settings::Serving;
use crate::traffic::{Noted, Passed, Traffic};
use crate::turned::TurnedAway;
use crate::until::Until;
use crossbeam_channel::{Receiver, RecvTimeoutError, Sender};
use log::Log;
use std::alloc::Global;
use std::marker::Brand;
use std::net::{TcpListener, TcpStream};
use std::slice;
use std::sync::Arc;
use std::thread::PromisedHandle;
use std::time::{Duration, Instant};
use tn_net::network::{Network, Peer};
use tn_net::{Hook, Host, Standing};
use tn_session::roster::Roster;

/// The most events that wait for the loop.
const EVENTS: usize = 16;

/// Serves each of these places until `serving.count` connections were accepted, or `until` reports
/// that no more are to come, and all their sessions have ended. A place is an address or a name
/// that has one, a path, or a socket that is handed in.
///
/// Each connection has a session in threads of its own, with the jobs that the service makes for
/// it, as long as there are no more sessions, and no more from its host, than there may be; a
/// connection beyond that gets the line `full` and is closed. Once `until` reports that no more are
/// to come, sessions have `serving.drain` seconds to end; then their last words are `closing`.
/// `log` gets a record of each event: a warning for a session that ends in a fault, after an error
/// `tn: session`.
///
/// Each session runs as `serve_connection` runs one; the clauses count the sessions, and say for
/// what the network was asked. No clause promises that `until` is asked. It takes eight arguments,
/// since what is lent and what is given go together nowhere else.
///
/// # Errors
///
/// - `Limit`: `serving.sessions` is not from 1 to 64.
/// - `Network`: it cannot listen at one of the places, and then nothing is served and `causes` gets
///   a line; or a listener broke.
/// - `Memory`: there is no memory.
pub fn serve<H, U, V, L>(
    rt: H,
    alloc: Global,
    at: &[At<'_>],
    serving: Serving,
    until: U,
    service: V,
    log: &L,
    causes: &mut Vec<u8>,
) -> Result<Served, ServeFault>
where
    H: Host + Network,
    U: Until + Drop + Send + 'static,
    V: Service + Drop,
    L: Log,
    ensures all { IfOk result (ServesUntil serving.count (U.ends until)) }
    ensures each { IfOk result (λ served. CountsSessions (server_of
        (facts_of V.Job.fresh V.Jobs.gives V.Job.reacts V.Job.steps V.Job.refuses) V.Jobs.left serving.options
        (V.makes service) (WasTurnedAway (H.dismisses rt))) served.whole served.faulted served.refused) }
    ensures heard { IfOk result (λ served. HearsAll V.turns (HasEnded (server_of
        (facts_of V.Job.fresh V.Jobs.gives V.Job.reacts V.Job.steps V.Job.refuses) V.Jobs.left serving.options
        (V.makes service) (WasTurnedAway (H.dismisses rt)))) service served.whole served.faulted) }
    ensures listened { Listens (at_place (H.listens rt)) (H.shares rt) (H.accepts rt) (map place_at at.now)
        (λ (served : Served). served.accepted) (λ error ended. FailsBy error ended) result }
    ensures limit { IsErrOf result ServeFault.Limit → ¬ IsLimit serving.sessions }
{
    let listeners = listen_all(&rt, alloc, at, causes)?;
    serve_as::<H, U, V, L, Brand>(rt, alloc, &listeners, serving, until, service, log)
}

/// Serves an existing listener, as `serve` does one of its own, until `serving.count` connections
/// were accepted, or `until` reports that no more are to come, and all their sessions have ended.
///
/// # Errors
///
/// - `Limit`: `serving.sessions` is not from 1 to 64; nothing is served.
/// - `Network`: the listener broke.
/// - `Memory`: there is no memory.
pub fn serve_on<H, U, V, L>(
    rt: H,
    alloc: Global,
    listener: &TcpListener,
    serving: Serving,
    until: U,
    service: V,
    log: &L,
) -> Result<Served, ServeFault>
where
    H: Host + Network,
    U: Until + Drop + Send + 'static,
    V: Service + Drop,
    L: Log,
    ensures all { IfOk result (ServesUntil serving.count (U.ends until)) }
    ensures each { IfOk result (λ served. CountsSessions (server_of
        (facts_of V.Job.fresh V.Jobs.gives V.Job.reacts V.Job.steps V.Job.refuses) V.Jobs.left serving.options
        (V.makes service) (WasTurnedAway (H.dismisses rt))) served.whole served.faulted served.refused) }
    ensures heard { IfOk result (λ served. HearsAll V.turns (HasEnded (server_of
        (facts_of V.Job.fresh V.Jobs.gives V.Job.reacts V.Job.steps V.Job.refuses) V.Jobs.left serving.options
        (V.makes service) (WasTurnedAway (H.dismisses rt)))) service served.whole served.faulted) }
    ensures accepted { IfOk result (λ served.
        Accepts (H.shares rt) (H.accepts rt) (listener.now ∷ []) served.accepted) }
    ensures limit { IsErrOf result ServeFault.Limit → ¬ IsLimit serving.sessions }
    ensures bad_limit { (¬ IsLimit serving.sessions) → IsErrOf result ServeFault.Limit }
{
    let listeners = slice::from_ref(listener);
    serve_as::<H, U, V, L, Brand>(rt, alloc, listeners, serving, until, service, log)
}

// Serves the connections of listeners, for contracts that name the options of its sessions.
fn serve_as<
    H: Host + Network,
    U: Until + Drop + Send + 'static,
    V: Service + Drop,
    L: Log,
    O: Asked<V::Jobs>,
>(
    rt: H,
    alloc: Global,
    listeners: &[TcpListener],
    serving: Serving,
    until: U,
    service: V,
    log: &L,
) -> Result<Served, ServeFault>
    requires asked { serving.options ≡ O.options }
    requires makes { MakesOnly V.makes service O.made }
    requires turns { TurnsAway (H.dismisses rt) O.turned }
    ensures all { IfOk result (ServesUntil serving.count (U.ends until)) }
    ensures each { IfOk result (λ served. CountsSessions (server_of
        (facts_of V.Job.fresh V.Jobs.gives V.Job.reacts V.Job.steps V.Job.refuses) V.Jobs.left O.options
        O.made O.turned)
        served.whole served.faulted served.refused) }
    ensures heard { IfOk result (λ served. HearsAll V.turns (HasEnded (server_of
        (facts_of V.Job.fresh V.Jobs.gives V.Job.reacts V.Job.steps V.Job.refuses) V.Jobs.left O.options
        O.made O.turned))
        service served.whole served.faulted) }
    ensures accepted { IfOk result (λ served.
        Accepts (H.shares rt) (H.accepts rt) listeners.now served.accepted) }
    ensures limit { IsErrOf result ServeFault.Limit → ¬ IsLimit serving.sessions }
    ensures bad_limit { (¬ IsLimit serving.sessions) → IsErrOf result ServeFault.Limit }
{
    let roster = Roster::new(alloc, usize::from(serving.sessions))?;
    let (sender, receiver) = crossbeam_channel::bounded(alloc, EVENTS)?;
    for listener in listeners {
        note_texts::listening(log, listener);
    }
    let mut open: Open<H, V, O> = Open {
        rt,
        alloc,
        serving,
        service,
        roster,
        running: Running::new(alloc),
        is_closed: false,
        events: sender,
        turned_away: TurnedAway::new(alloc),
    };
    let served = open.serve_listeners(listeners, until, receiver, log);
    drop(open);
    served
}

// Accepts connections in a thread of their own.
fn accepting<H: Host + Network, U: Until + Drop + Send + 'static>(
    rt: H,
    alloc: Global,
    listeners: &[TcpListener],
    events: &Sender<Event, Global>,
    over: Receiver<(), Global>,
    until: U,
    serving: &Serving,
) -> Result<PromisedHandle<Accepted, AcceptorSays<H, U>>, ServeFault>
    ensures rt { IfOk result (λ handle. handle.promise.rt.value ≡ rt) }
    ensures shares { IfOk result (λ handle.
        GiveEach (H.shares rt) listeners.now (vec_items handle.promise.listeners.value)) }
    ensures until { IfOk result (λ handle. handle.promise.until.value ≡ until) }
    ensures in_limit { ¬ IsErrOf result ServeFault.Limit }
{
    let listeners = share_each(&rt, alloc, listeners)?;
    let waiting = Waiting::new(alloc, &listeners)?;
    let acceptor = Acceptor {
        rt,
        listeners,
        events: events.clone()?,
        over,
        count: serving.count,
        is_proxied: serving.is_proxied,
        is_handed: serving.is_handed,
        until,
    };
    match acceptor.start(waiting) {
        Some(handle) => Ok(handle),
        None => Err(ServeFault::Memory),
    }
}

// Returns one more handle of each of these listeners.
fn share_each<N: Network>(
    net: &N,
    alloc: Global,
    listeners: &[TcpListener],
) -> Result<Vec<TcpListener>, ServeFault>
    ensures shares { IfOk result (λ ours. GiveEach (N.shares net.now) listeners.now (vec_items ours)) }
    ensures in_limit { ¬ IsErrOf result ServeFault.Limit }
{
    let mut ours = Vec::new(alloc);
    for listener in listeners {
        ours.push(net.share(listener)?)?;
    }
    Ok(ours)
}

// Returns the counts of the connections, if as many were accepted as were served, and enough.
fn agreed(served: Served, accepted: Accepted, count: u64) -> Result<Served, ServeFault>
    ensures served { IfOk result (λ agreed. agreed ≡ served) }
    ensures accepted { IfOk result (λ agreed. agreed.accepted ≡ accepted.count) }
    ensures enough { IfOk result (λ _. AreEnough count accepted) }
    ensures in_limit { ¬ IsErrOf result ServeFault.Limit }
{
    if served.accepted() != accepted.count {
        return Err(ServeFault::Network);
    }
    if !accepted.are_enough(count) {
        return Err(ServeFault::Network);
    }
    Ok(served)
}

/// The parts that a session which is to start needs besides its jobs.
#[derive(Drop)]
struct Prepared {
    call: Call,
    /// The handle by which the session sends that it has ended.
    end: Notes,
    standing: Arc<Standing, Global>,
    traffic: Arc<Traffic, Global>,
    /// The two of them, for the note of its end.
    noted: Noted,
}

/// A server that is open: which sessions run, by number, and how those before them ended.
#[derive(Drop)]
struct Open<H, V: Service, O: Asked<V::Jobs>> {
    rt: H,
    alloc: Global,
    serving: Serving,
    service: V,
    roster: Roster,
    running: Running<V::Job, V::Jobs, O>,
    /// Whether no more connections come.
    is_closed: bool,
    events: Sender<Event, Global>,
    turned_away: TurnedAway,
    ghost within: { vec_len running.started ≤ held_count roster },
    ghost asked: { serving.options ≡ O.options },
    ghost limit: { roster.limit ≡ serving.sessions },
}

impl<H: Host + Network, V: Service, O: Asked<V::Jobs>> Open<H, V, O> {
    // Serves the connections of these listeners, which a thread of its own accepts, until there
    // were as many as it was asked for, or `until` reports that no more are to come, and each
    // session has ended.
    fn serve_listeners<U: Until + Drop + Send + 'static, L: Log>(
        &mut self,
        listeners: &[TcpListener],
        until: U,
        events: Receiver<Event, Global>,
        log: &L,
    ) -> Result<Served, ServeFault>
        requires makes { MakesOnly V.makes self.old.service O.made }
        requires turns { TurnsAway (H.dismisses self.old.rt) O.turned }
        requires empty { self.old.roster.numbers ≡ [] }
        requires none { vec_len self.old.running.started ≡ 0 }
        requires counts { (self.old.running.whole ≡ 0) × (self.old.running.faulted ≡ 0)
            × (self.old.running.refused ≡ 0) }
        ensures all { IfOk result (ServesUntil self.old.serving.count (U.ends until)) }
        ensures each { IfOk result (λ served. CountsSessions (server_of
            (facts_of V.Job.fresh V.Jobs.gives V.Job.reacts V.Job.steps V.Job.refuses) V.Jobs.left O.options
            O.made O.turned)
            served.whole served.faulted served.refused) }
        ensures heard { IfOk result (λ served. HearsAll V.turns (HasEnded (server_of
            (facts_of V.Job.fresh V.Jobs.gives V.Job.reacts V.Job.steps V.Job.refuses) V.Jobs.left O.options
            O.made O.turned))
            self.old.service served.whole served.faulted) }
        ensures accepted { IfOk result (λ served. Accepts (H.shares self.old.rt) (H.accepts self.old.rt)
            listeners.now served.accepted) }
        ensures in_limit { ¬ IsErrOf result ServeFault.Limit }
    {
        let rt = self.rt;
        let count = self.serving.count;
        let (serves, over) = crossbeam_channel::bounded(self.alloc, 1)?;
        let acceptor = accepting(
            rt,
            self.alloc,
            listeners,
            &self.events,
            over,
            until,
            &self.serving,
        )?;
        let served = self.run(&events, log);
        drop(events);
        drop(serves);
        let accepted = acceptor.join(&rt);
        agreed(served, accepted, count)
    }

    // Serves until no more connections are to come and each session has ended.
    fn run<L: Log>(&mut self, events: &Receiver<Event, Global>, log: &L) -> Served
        requires makes { MakesOnly V.makes self.old.service O.made }
        requires turns { TurnsAway (H.dismisses self.old.rt) O.turned }
        requires empty { self.old.roster.numbers ≡ [] }
        requires none { vec_len self.old.running.started ≡ 0 }
        requires counts { (self.old.running.whole ≡ 0) × (self.old.running.faulted ≡ 0)
            × (self.old.running.refused ≡ 0) }
        ensures each { CountsSessions (server_of
            (facts_of V.Job.fresh V.Jobs.gives V.Job.reacts V.Job.steps V.Job.refuses) V.Jobs.left O.options
            O.made O.turned)
            result.whole result.faulted result.refused }
        ensures heard { HearsAll V.turns (HasEnded (server_of
            (facts_of V.Job.fresh V.Jobs.gives V.Job.reacts V.Job.steps V.Job.refuses) V.Jobs.left O.options
            O.made O.turned))
            self.old.service result.whole result.faulted }
    {
        self.serve_all(events, log);
        self.join_all(log);
        self.running.served()
    }

    fn serve_all<L: Log>(&mut self, events: &Receiver<Event, Global>, log: &L)
        requires makes { MakesOnly V.makes self.old.service O.made }
        requires turns { TurnsAway (H.dismisses self.old.rt) O.turned }
        ensures each { StillCounts (server_of
            (facts_of V.Job.fresh V.Jobs.gives V.Job.reacts V.Job.steps V.Job.refuses) V.Jobs.left O.options
            O.made O.turned)
            self.old.running.whole self.old.running.faulted self.old.running.refused
            self.new.running.whole self.new.running.faulted self.new.running.refused }
        ensures heard { AreHeld self.old.roster (vec_items self.old.running.started) (λ s. s.caller.number)
            → StillHears V.turns (HasEnded (server_of
            (facts_of V.Job.fresh V.Jobs.gives V.Job.reacts V.Job.steps V.Job.refuses) V.Jobs.left O.options
            O.made O.turned))
            self.old.running.whole self.old.running.faulted self.old.service
            (live_of (vec_items self.old.running.started) (λ s. s.caller.number))
            self.new.running.whole self.new.running.faulted self.new.service
            (live_of (vec_items self.new.running.started) (λ s. s.caller.number)) }
    {
        let rt = self.rt;
        let mut drain = Drain::new(self.serving.drain);
        for _ in rt.forever() {
            if self.is_done() {
                return;
            }
            self.running.end_by(drain.next(&rt, self.is_closed));
            let time = drain.time().or(self.turned_away.close(&rt));
            let Some(event) = next_event(&rt, events, time) else {
                return;
            };
            self.handle(event, log);
        }
    }

    // Returns whether no more connections are to come, and each session has ended and is joined.
    fn is_done(&self) -> bool
        ensures { IsTrue result → vec_len self.now.running.started ≡ 0 }
    {
        (self.is_closed || self.running.accepted >= self.serving.count) && self.running.is_empty()
    }

    fn handle<L: Log>(&mut self, event: Event, log: &L)
        requires makes { MakesOnly V.makes self.old.service O.made }
        requires turns { TurnsAway (H.dismisses self.old.rt) O.turned }
        ensures each { StillCounts (server_of
            (facts_of V.Job.fresh V.Jobs.gives V.Job.reacts V.Job.steps V.Job.refuses) V.Jobs.left O.options
            O.made O.turned)
            self.old.running.whole self.old.running.faulted self.old.running.refused
            self.new.running.whole self.new.running.faulted self.new.running.refused }
        ensures heard { AreHeld self.old.roster (vec_items self.old.running.started) (λ s. s.caller.number)
            → StillHears V.turns (HasEnded (server_of
            (facts_of V.Job.fresh V.Jobs.gives V.Job.reacts V.Job.steps V.Job.refuses) V.Jobs.left O.options
            O.made O.turned))
            self.old.running.whole self.old.running.faulted self.old.service
            (live_of (vec_items self.old.running.started) (λ s. s.caller.number))
            self.new.running.whole self.new.running.faulted self.new.service
            (live_of (vec_items self.new.running.started) (λ s. s.caller.number)) }
        ensures held { AreHeld self.old.roster (vec_items self.old.running.started) (λ s. s.caller.number)
            → AreHeld self.new.roster (vec_items self.new.running.started) (λ s. s.caller.number) }
        ensures makes { StillMakes V.makes self.old.service self.new.service }
        ensures rt { self.new.rt ≡ self.old.rt }
    {
        match event {
            Event::Came(stream, peer) => return self.admit(stream, &peer, log),
            Event::Ended(number) => return self.end(number, log),
            Event::Starved(error) => return note_texts::starved(log, &error),
            Event::Refused(peer, error) => return note_texts::full_by(log, &peer, &error),
            Event::Unproxied(peer) => return note_texts::unproxied(log, &peer),
            Event::Cut(number, bytes) => return self.tell_cut(number, bytes, log),
            Event::Telnet(number) => return self.tell_telnet(number, log),
            Event::Quiet => return,
            Event::Closed => {},
        }
        self.is_closed = true;
        note_texts::closed(log);
    }

    // Starts a session over a connection that came, or turns it away if the session limit is
    // reached.
    fn admit<L: Log>(&mut self, stream: TcpStream, peer: &Peer, log: &L)
        requires makes { MakesOnly V.makes self.old.service O.made }
        requires turns { TurnsAway (H.dismisses self.old.rt) O.turned }
        ensures each { StillCounts (server_of
            (facts_of V.Job.fresh V.Jobs.gives V.Job.reacts V.Job.steps V.Job.refuses) V.Jobs.left O.options
            O.made O.turned)
            self.old.running.whole self.old.running.faulted self.old.running.refused
            self.new.running.whole self.new.running.faulted self.new.running.refused }
        ensures heard { AreHeld self.old.roster (vec_items self.old.running.started) (λ s. s.caller.number)
            → StillHears V.turns (HasEnded (server_of
            (facts_of V.Job.fresh V.Jobs.gives V.Job.reacts V.Job.steps V.Job.refuses) V.Jobs.left O.options
            O.made O.turned))
            self.old.running.whole self.old.running.faulted self.old.service
            (live_of (vec_items self.old.running.started) (λ s. s.caller.number))
            self.new.running.whole self.new.running.faulted self.new.service
            (live_of (vec_items self.new.running.started) (λ s. s.caller.number)) }
        ensures held { AreHeld self.old.roster (vec_items self.old.running.started) (λ s. s.caller.number)
            → AreHeld self.new.roster (vec_items self.new.running.started) (λ s. s.caller.number) }
        ensures makes { StillMakes V.makes self.old.service self.new.service }
        ensures rt { self.new.rt ≡ self.old.rt }
        ensures over { RunsOver (λ s. s.session.promise.stream.value) (λ s. s.caller)
            stream peer.now (self.old.running.accepted + 1)
            (vec_items self.old.running.started) (vec_items self.new.running.started) }
        ensures full { AreHeld self.old.roster (vec_items self.old.running.started) (λ s. s.caller.number)
            → (self.new.running.refused ≡ self.old.running.refused)
            ⊎ RunsAll (vec_len self.old.running.started) self.old.serving.sessions self.old.serving.per_host
            (count_from (λ s. s.caller.peer) peer.now (vec_items self.old.running.started)) }
    {
        if self.running.accepted >= self.serving.count {
            return;
        }
        let serial = self.running.accepted + 1;
        let per_host = self.serving.per_host;
        let Some(number) = self.running.enter(&mut self.roster, per_host, peer, log) else {
            note_texts::full(log, serial, peer);
            return self.turn_away(stream, peer);
        };
        let caller = Caller {
            number,
            serial,
            peer: *peer,
            since: Instant::now(&self.rt).ok(),
        };
        note_texts::began(log, &caller);
        self.take_in(stream, caller, log);
    }

    // Notes that a line of a session may have been truncated.
    fn tell_cut<L: Log>(&self, number: usize, bytes: usize, log: &L) {
        if let Some(caller) = self.running.caller_of(number) {
            note_texts::cut(log, &caller, bytes);
        }
    }

    // Notes that the service of a session speaks Telnet.
    fn tell_telnet<L: Log>(&self, number: usize, log: &L) {
        if let Some(caller) = self.running.caller_of(number) {
            note_texts::telnet(log, &caller);
        }
    }

    // Sends a connection the line `full`, since there is no room for it.
    fn turn_away(&mut self, stream: TcpStream, peer: &Peer)
        requires turns { TurnsAway (H.dismisses self.old.rt) O.turned }
        requires full { HasNoPlace self.old.roster self.old.serving.per_host
            (count_from (λ s. s.caller.peer) peer.now
            (vec_items self.old.running.started)) }
        requires more { self.old.running.accepted < 2 ^ 64 - 1 }
        ensures each { StillCounts (server_of
            (facts_of V.Job.fresh V.Jobs.gives V.Job.reacts V.Job.steps V.Job.refuses) V.Jobs.left O.options
            O.made O.turned)
            self.old.running.whole self.old.running.faulted self.old.running.refused
            self.new.running.whole self.new.running.faulted self.new.running.refused }
        ensures started { self.new.running.started ≡ self.old.running.started }
        ensures counts { (self.new.running.whole ≡ self.old.running.whole)
            × (self.new.running.faulted ≡ self.old.running.faulted) }
        ensures roster { self.new.roster ≡ self.old.roster }
        ensures service { self.new.service ≡ self.old.service }
        ensures rt { self.new.rt ≡ self.old.rt }
    {
        let told = self.rt.dismiss(stream, b"full\r\n");
        self.running
            .refuse(&self.roster, self.serving.per_host, peer, &told);
        self.turned_away.keep(&self.rt, told);
    }

    // Starts the session with this number, which is held for it.
    fn take_in<L: Log>(&mut self, stream: TcpStream, caller: Caller, log: &L)
        requires makes { MakesOnly V.makes self.old.service O.made }
        requires held { vec_len self.old.running.started < held_count self.old.roster }
        requires place { count_from (λ s. s.caller.peer) caller.peer
            (vec_items self.old.running.started) < self.old.serving.per_host }
        requires more { self.old.running.accepted < 2 ^ 64 - 1 }
        ensures each { StillCounts (server_of
            (facts_of V.Job.fresh V.Jobs.gives V.Job.reacts V.Job.steps V.Job.refuses) V.Jobs.left O.options
            O.made O.turned)
            self.old.running.whole self.old.running.faulted self.old.running.refused
            self.new.running.whole self.new.running.faulted self.new.running.refused }
        ensures heard { AreHeldBeside caller.number self.old.roster
            (vec_items self.old.running.started) (λ s. s.caller.number)
            → StillHears V.turns (HasEnded (server_of
            (facts_of V.Job.fresh V.Jobs.gives V.Job.reacts V.Job.steps V.Job.refuses) V.Jobs.left O.options
            O.made O.turned))
            self.old.running.whole self.old.running.faulted self.old.service
            (live_of (vec_items self.old.running.started) (λ s. s.caller.number))
            self.new.running.whole self.new.running.faulted self.new.service
            (live_of (vec_items self.new.running.started) (λ s. s.caller.number)) }
        ensures held { AreHeldBeside caller.number self.old.roster
            (vec_items self.old.running.started) (λ s. s.caller.number)
            → AreHeld self.new.roster (vec_items self.new.running.started) (λ s. s.caller.number) }
        ensures makes { StillMakes V.makes self.old.service self.new.service }
        ensures rt { self.new.rt ≡ self.old.rt }
        ensures over { RunsOver (λ s. s.session.promise.stream.value) (λ s. s.caller)
            stream caller.peer caller.serial
            (vec_items self.old.running.started) (vec_items self.new.running.started) }
        ensures refused { self.new.running.refused ≡ self.old.running.refused }
    {
        if !self.running.has_room() {
            return self.give_up(&caller, log);
        }
        let Some(session) = self.start(stream, caller) else {
            return self.give_up(&caller, log);
        };
        self.running.keep(session);
    }

    // Gives up the session with this number, which could not be started; its number is free.
    fn give_up<L: Log>(&mut self, caller: &Caller, log: &L)
        requires held { vec_len self.old.running.started < held_count self.old.roster }
        requires more { self.old.running.accepted < 2 ^ 64 - 1 }
        ensures each { StillCounts (server_of
            (facts_of V.Job.fresh V.Jobs.gives V.Job.reacts V.Job.steps V.Job.refuses) V.Jobs.left O.options
            O.made O.turned)
            self.old.running.whole self.old.running.faulted self.old.running.refused
            self.new.running.whole self.new.running.faulted self.new.running.refused }
        ensures started { self.new.running.started ≡ self.old.running.started }
        ensures one { (self.new.running.whole ≡ self.old.running.whole)
            × (self.new.running.faulted ≡ self.old.running.faulted + 1)
            × (self.new.running.refused ≡ self.old.running.refused) }
        ensures held { AreHeldBeside caller.now.number self.old.roster
            (vec_items self.old.running.started) (λ s. s.caller.number)
            → AreHeld self.new.roster (vec_items self.new.running.started) (λ s. s.caller.number) }
        ensures service { self.new.service ≡ self.old.service }
        ensures rt { self.new.rt ≡ self.old.rt }
    {
        self.roster.leave(caller.number);
        self.running.fail();
        tell_end(
            log,
            &SessionEnd {
                caller,
                finished: &Finished::unstarted(),
                causes: b"",
                is_closing: false,
                lasted: caller.lasted(&self.rt),
                passed: Passed::nothing(),
            },
        );
    }

    // Runs a session in a thread of its own, if one can be had.
    fn start(&mut self, stream: TcpStream, caller: Caller) -> Option<Started<V::Jobs, O>>
        requires makes { MakesOnly V.makes self.old.service O.made }
        ensures running { self.new.running ≡ self.old.running }
        ensures roster { self.new.roster ≡ self.old.roster }
        ensures makes { StillMakes V.makes self.old.service self.new.service }
        ensures jobs { IfSome result (λ started. HearsOfJobs V.turns (HasEnded (server_of
            (facts_of V.Job.fresh V.Jobs.gives V.Job.reacts V.Job.steps V.Job.refuses) V.Jobs.left O.options
            O.made O.turned))
            started.caller.number self.old.service self.new.service) }
        ensures caller { IfSome result (λ started. started.caller ≡ caller) }
        ensures none { IfNone result (HearsOfNone V.turns (HasEnded (server_of
            (facts_of V.Job.fresh V.Jobs.gives V.Job.reacts V.Job.steps V.Job.refuses) V.Jobs.left O.options
            O.made O.turned))
            caller.number self.old.service self.new.service) }
        ensures over { IfSome result (λ started. started.session.promise.stream.value ≡ stream) }
        ensures rt { self.new.rt ≡ self.old.rt }
    {
        let Some(prepared) = prepare(self.alloc, &self.events, &caller) else {
            return None;
        };
        let Prepared {
            call,
            end,
            standing,
            traffic,
            noted,
        } = prepared;
        let Ok(jobs) = self.service.session(self.alloc, call) else {
            return None;
        };
        let session = Session {
            rt: self.rt,
            alloc: self.alloc,
            stream,
            options: self.serving.options,
            jobs,
            standing,
            traffic,
        };
        if let Some(session) = session.start(end) {
            return Some(Started::new(caller, noted, session));
        }
        self.service.ended(caller.number, &Finished::unstarted());
        None
    }

    // Ends the session with this number.
    fn end<L: Log>(&mut self, number: usize, log: &L)
        ensures each { StillCounts (server_of
            (facts_of V.Job.fresh V.Jobs.gives V.Job.reacts V.Job.steps V.Job.refuses) V.Jobs.left O.options
            O.made O.turned)
            self.old.running.whole self.old.running.faulted self.old.running.refused
            self.new.running.whole self.new.running.faulted self.new.running.refused }
        ensures heard { StillHears V.turns (HasEnded (server_of
            (facts_of V.Job.fresh V.Jobs.gives V.Job.reacts V.Job.steps V.Job.refuses) V.Jobs.left O.options
            O.made O.turned))
            self.old.running.whole self.old.running.faulted self.old.service
            (live_of (vec_items self.old.running.started) (λ s. s.caller.number))
            self.new.running.whole self.new.running.faulted self.new.service
            (live_of (vec_items self.new.running.started) (λ s. s.caller.number)) }
        ensures held { AreHeld self.old.roster (vec_items self.old.running.started) (λ s. s.caller.number)
            → AreHeld self.new.roster (vec_items self.new.running.started) (λ s. s.caller.number) }
        ensures makes { StillMakes V.makes self.old.service self.new.service }
        ensures rt { self.new.rt ≡ self.old.rt }
    {
        let Some(place) = self.running.place_of(number) else {
            return;
        };
        self.end_at(place, log);
    }

    // Joins the session at this place, which has ended; its number is free.
    fn end_at<L: Log>(&mut self, place: usize, log: &L)
        requires { place < vec_len self.old.running.started }
        ensures each { StillCounts (server_of
            (facts_of V.Job.fresh V.Jobs.gives V.Job.reacts V.Job.steps V.Job.refuses) V.Jobs.left O.options
            O.made O.turned)
            self.old.running.whole self.old.running.faulted self.old.running.refused
            self.new.running.whole self.new.running.faulted self.new.running.refused }
        ensures heard { StillHears V.turns (HasEnded (server_of
            (facts_of V.Job.fresh V.Jobs.gives V.Job.reacts V.Job.steps V.Job.refuses) V.Jobs.left O.options
            O.made O.turned))
            self.old.running.whole self.old.running.faulted self.old.service
            (live_of (vec_items self.old.running.started) (λ s. s.caller.number))
            self.new.running.whole self.new.running.faulted self.new.service
            (live_of (vec_items self.new.running.started) (λ s. s.caller.number)) }
        ensures held { AreHeld self.old.roster (vec_items self.old.running.started) (λ s. s.caller.number)
            → AreHeld self.new.roster (vec_items self.new.running.started) (λ s. s.caller.number) }
        ensures fewer { vec_len self.new.running.started + 1 ≡ vec_len self.old.running.started }
        ensures accepted { self.new.running.accepted ≡ self.old.running.accepted }
        ensures makes { StillMakes V.makes self.old.service self.new.service }
        ensures rt { self.new.rt ≡ self.old.rt }
    {
        let left = self.running.join_at(&self.rt, place);
        self.service.ended(left.caller.number, &left.finished);
        self.roster.leave(left.caller.number);
        self.tell_left(&left, log);
    }

    // Notes how a session ended that was joined.
    fn tell_left<L: Log>(&self, left: &Left, log: &L) {
        let Noted { traffic, standing } = &left.noted;
        tell_end(
            log,
            &SessionEnd {
                caller: &left.caller,
                finished: &left.finished,
                causes: standing.unreached().unwrap_or(b""),
                is_closing: standing.is_closing(),
                lasted: left.caller.lasted(&self.rt),
                passed: traffic.passed(),
            },
        );
    }

    // Joins all sessions that still run.
    fn join_all<L: Log>(&mut self, log: &L)
        ensures each { StillCounts (server_of
            (facts_of V.Job.fresh V.Jobs.gives V.Job.reacts V.Job.steps V.Job.refuses) V.Jobs.left O.options
            O.made O.turned)
            self.old.running.whole self.old.running.faulted self.old.running.refused
            self.new.running.whole self.new.running.faulted self.new.running.refused }
        ensures heard { StillHears V.turns (HasEnded (server_of
            (facts_of V.Job.fresh V.Jobs.gives V.Job.reacts V.Job.steps V.Job.refuses) V.Jobs.left O.options
            O.made O.turned))
            self.old.running.whole self.old.running.faulted self.old.service
            (live_of (vec_items self.old.running.started) (λ s. s.caller.number))
            self.new.running.whole self.new.running.faulted self.new.service
            (live_of (vec_items self.new.running.started) (λ s. s.caller.number)) }
        ensures none { vec_len self.new.running.started ≡ 0 }
        ensures accepted { self.new.running.accepted ≡ self.old.running.accepted }
    {
        while !self.running.is_empty() {
            self.end_at(0, log);
        }
    }
}

// Notes how a session ended. For one that ended in a fault, the program's own line is printed too.
fn tell_end<L: Log>(log: &L, end: &SessionEnd<'_>) {
    if !end.finished.is_whole() {
        note_texts::fault(log);
    }
    note_texts::ended(log, end);
}

// Makes the parts that a session which is to start needs besides its jobs.
fn prepare(alloc: Global, events: &Sender<Event, Global>, caller: &Caller) -> Option<Prepared>
    ensures { IfSome result (λ prepared. prepared.call.number ≡ caller.now.number) }
{
    let standing = Standing::new(alloc).ok()?;
    let traffic = Traffic::new(alloc).ok()?;
    Some(Prepared {
        noted: Noted::of(&traffic, &standing)?,
        call: call_of(events, caller, &standing)?,
        end: notes_of(events, caller)?,
        standing,
        traffic,
    })
}

// Makes the description of a connection that is to have a session, for its service.
fn call_of(
    events: &Sender<Event, Global>,
    caller: &Caller,
    standing: &Arc<Standing, Global>,
) -> Option<Call>
    ensures { IfSome result (λ call. call.number ≡ caller.now.number) }
{
    let Caller { number, peer, .. } = *caller;
    let hook = Hook::new(standing).ok()?;
    let notes = notes_of(events, caller)?;
    Some(Call {
        number,
        peer,
        hook,
        notes,
    })
}

// Makes the handle by which something is noted of a session.
fn notes_of(events: &Sender<Event, Global>, caller: &Caller) -> Option<Notes> {
    Some(Notes {
        events: events.clone().ok()?,
        number: caller.number,
    })
}

// Returns the next event at a server, within this time if there is one.
fn next_event<H: Host>(
    rt: &H,
    events: &Receiver<Event, Global>,
    time: Option<Duration>,
) -> Option<Event> {
    let Some(time) = time else {
        return events.recv(rt).ok();
    };
    match events.recv_timeout(rt, time) {
        Ok(event) => Some(event),
        Err(RecvTimeoutError::Timeout) => Some(Event::Quiet),
        Err(RecvTimeoutError::Disconnected) => None,
    }
}
