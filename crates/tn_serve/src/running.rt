//! The sessions that are started and not yet joined, and how the earlier ones ended.

ghost use Rattle.std.specs.Prelude.{◌≡◌, ◌<◌, ◌≤◌, ◌+◌, ◌-◌, ◌^◌, ◌++◌, ◌∷◌, [], IsTrue, IsFalse, IfSome};
ghost use Rattle.std.specs.Prelude.{◌≢◌, All, IfNone, vec_items, vec_len, vec_capacity};
ghost use Rattle.tn_serve.specs.Counted.{HasEnded, StillCounts, facts_of, server_of};
ghost use Rattle.tn_serve.specs.Places.{HasNoPlace, count_at, count_from, counted_as, is_one_host};
ghost use Rattle.tn_serve.specs.Turns.{IsOneEnd, IsOneMore, live_of};
ghost use Rattle.tn_session.specs.roster.Held.{Enters};

use crate::asked::Asked;
use crate::caller::Caller;
use crate::conversed::Ran;
use crate::draining::Due;
use crate::finished::Finished;
use crate::hosts::counted_as;
use crate::served::Served;
use crate::session::SessionSays;
use crate::traffic::Noted;
use log::Log;
use std::alloc::Global;
use std::marker::PhantomData;
use std::net::{IpAddr, TcpStream};
use std::thread::{PromisedHandle, Threads};
use tn_jobs::Job;
use tn_net::network::Peer;
use tn_session::Maker;
use tn_session::roster::Roster;

// A started session. Its thread promises what it gives back, under the options that were asked for.
#[derive(Drop)]
pub(crate) struct Started<M: Maker, O: Asked<M>> {
    caller: Caller,
    noted: Noted,
    session: PromisedHandle<Ran, SessionSays<M>>,
    under: PhantomData<O>,
    ghost asked: { session.promise.options ≡ O.options },
    ghost made: { ∥ O.made session.promise.jobs.value ∥₁ },
}

impl<M: Maker, O: Asked<M>> Started<M, O> {
    pub(crate) fn new(
        caller: Caller,
        noted: Noted,
        session: PromisedHandle<Ran, SessionSays<M>>,
    ) -> Started<M, O>
        requires asked { session.promise.options ≡ O.options }
        requires made { O.made session.promise.jobs.value }
        ensures caller { result.caller ≡ caller }
        ensures session { result.session ≡ session }
    {
        Started {
            caller,
            noted,
            session,
            under: PhantomData,
        }
    }

    fn is_from(&self, host: Option<IpAddr>) -> bool
        ensures { result ≡ is_one_host (counted_as self.now.caller.peer) host }
    {
        match (counted_as(self.caller.peer), host) {
            (Some(one), Some(other)) => one == other,
            _ => false,
        }
    }
}

// Returns the number of these sessions that are counted as from this host.
fn count_of<M: Maker, O: Asked<M>>(started: &[Started<M, O>], host: Option<IpAddr>) -> usize
    ensures { result ≡ count_at (λ s. s.caller.peer) host started.now }
{
    let mut count = 0usize;
    for one in started {
        if one.is_from(host) {
            count += 1;
        }
    }
    count
}

/// A session that was joined.
#[derive(Drop)]
pub(crate) struct Left {
    pub(crate) caller: Caller,
    pub(crate) finished: Finished,
    pub(crate) noted: Noted,
}

/// The sessions that are started and not yet joined, and counts of how the other connections ended.
#[derive(Drop)]
pub(crate) struct Running<J: Job, M: Maker<Job = J>, O: Asked<M>> {
    pub(crate) started: Vec<Started<M, O>>,
    pub(crate) accepted: u64,
    pub(crate) whole: u64,
    pub(crate) faulted: u64,
    pub(crate) refused: u64,
    ghost counted: { vec_len started + whole + faulted + refused ≡ accepted },
}

impl<J: Job, M: Maker<Job = J>, O: Asked<M>> Running<J, M, O> {
    pub(crate) fn new(alloc: Global) -> Running<J, M, O>
        ensures accepted { result.accepted ≡ 0 }
        ensures none { vec_len result.started ≡ 0 }
        ensures counts { (result.whole ≡ 0) × (result.faulted ≡ 0) × (result.refused ≡ 0) }
    {
        Running {
            started: Vec::new(alloc),
            accepted: 0,
            whole: 0,
            faulted: 0,
            refused: 0,
        }
    }

    pub(crate) fn is_empty(&self) -> bool
        ensures none { IsTrue result → vec_len self.now.started ≡ 0 }
        ensures some { IsFalse result → 0 < vec_len self.now.started }
    {
        self.started.is_empty()
    }

    /// Returns whether there is room for one more session. False when out of memory.
    pub(crate) fn has_room(&mut self) -> bool
        ensures accepted { self.new.accepted ≡ self.old.accepted }
        ensures counts { (self.new.whole ≡ self.old.whole) × (self.new.faulted ≡ self.old.faulted)
            × (self.new.refused ≡ self.old.refused) }
        ensures same { vec_items self.new.started ≡ vec_items self.old.started }
        ensures room { IsTrue result → vec_len self.new.started < vec_capacity self.new.started }
    {
        self.started.reserve(1).is_ok()
    }

    /// Returns the place of the session with this number, if there is one.
    pub(crate) fn place_of(&self, number: usize) -> Option<usize>
        ensures place { IfSome result (λ place. place < vec_len self.now.started) }
        ensures none { IfNone result (All (λ s. s.caller.number ≢ number) (vec_items self.now.started)) }
    {
        self.started
            .iter()
            .position(|started| started.caller.number == number)
    }

    /// Returns the client of the session with this number, if there is one.
    pub(crate) fn caller_of(&self, number: usize) -> Option<Caller> {
        let place = self.place_of(number)?;
        Some(self.started[place].caller)
    }

    // Returns the number of sessions that are counted as from the host of this peer.
    fn count_from(&self, peer: &Peer) -> usize
        ensures { result ≡ count_from (λ s. s.caller.peer) peer.now
            (vec_items self.now.started) }
    {
        count_of(&self.started, counted_as(*peer))
    }

    /// Takes in a session with this peer, and gives its number, if there is a place for it. What the roster
    /// answers is noted.
    pub(crate) fn enter<L: Log>(
        &self,
        roster: &mut Roster,
        per_host: u16,
        peer: &Peer,
        log: &L,
    ) -> Option<usize>
        ensures enters { IfSome result (Enters roster.old roster.new) }
        ensures place { IfSome result (λ _. count_from (λ s. s.caller.peer) peer.now
            (vec_items self.now.started) < per_host) }
        ensures full { IfNone result (HasNoPlace roster.new per_host (count_from (λ s. s.caller.peer) peer.now
            (vec_items self.now.started))) }
        ensures same { IfNone result (roster.new ≡ roster.old) }
    {
        if self.count_from(peer) >= usize::from(per_host) {
            return None;
        }
        let entered = roster.enter();
        tn_session::roster::note(log, &entered);
        match entered {
            Ok(number) => Some(number),
            Err(_) => None,
        }
    }

    /// Does what is due for the sessions that run.
    pub(crate) fn end_by(&self, due: Due) {
        for one in &self.started {
            let standing = &one.noted.standing;
            match due {
                Due::Nothing => {},
                Due::Close => standing.close(),
                Due::Cut => standing.cut(),
            }
        }
    }

    /// Joins the session at this place, and counts how it ended.
    pub(crate) fn join_at<R: Threads>(&mut self, rt: &R, place: usize) -> Left
        requires { place < vec_len self.old.started }
        ensures accepted { self.new.accepted ≡ self.old.accepted }
        ensures joined { vec_len self.new.started + 1 ≡ vec_len self.old.started }
        ensures ended { HasEnded
            (server_of (facts_of J.fresh M.gives J.reacts J.steps J.refuses) M.left O.options O.made
            O.turned) result.finished }
        ensures end { IsOneEnd result.finished self.old.whole self.old.faulted self.new.whole
            self.new.faulted }
        ensures closed { IsOneMore result.caller.number
            (live_of (vec_items self.new.started) (λ s. s.caller.number))
            (live_of (vec_items self.old.started) (λ s. s.caller.number)) }
        ensures each { StillCounts
            (server_of (facts_of J.fresh M.gives J.reacts J.steps J.refuses) M.left O.options O.made O.turned)
            self.old.whole self.old.faulted self.old.refused self.new.whole self.new.faulted
            self.new.refused }
    {
        let Started {
            caller,
            noted,
            session,
            ..
        } = self.started.swap_remove(place);
        let finished = session.join(rt).finished();
        if finished.is_whole() {
            self.whole += 1;
        } else {
            self.faulted += 1;
        }
        Left {
            caller,
            finished,
            noted,
        }
    }

    /// Counts an accepted connection, and keeps its session, which was started.
    pub(crate) fn keep(&mut self, session: Started<M, O>)
        requires room { vec_len self.old.started < vec_capacity self.old.started }
        requires more { self.old.accepted < 2 ^ 64 - 1 }
        ensures accepted { self.new.accepted ≡ self.old.accepted + 1 }
        ensures one { vec_len self.new.started ≡ vec_len self.old.started + 1 }
        ensures kept { vec_items self.new.started ≡ vec_items self.old.started ++ session ∷ [] }
        ensures opened { IsOneMore session.caller.number
            (live_of (vec_items self.old.started) (λ s. s.caller.number))
            (live_of (vec_items self.new.started) (λ s. s.caller.number)) }
        ensures counts { (self.new.whole ≡ self.old.whole) × (self.new.faulted ≡ self.old.faulted)
            × (self.new.refused ≡ self.old.refused) }
    {
        self.started.push_reserved(session);
        self.accepted += 1;
    }

    /// Counts an accepted connection whose session could not be started.
    pub(crate) fn fail(&mut self)
        requires { self.old.accepted < 2 ^ 64 - 1 }
        ensures accepted { self.new.accepted ≡ self.old.accepted + 1 }
        ensures same { self.new.started ≡ self.old.started }
        ensures one { (self.new.whole ≡ self.old.whole) × (self.new.faulted ≡ self.old.faulted + 1)
            × (self.new.refused ≡ self.old.refused) }
        ensures each { StillCounts
            (server_of (facts_of J.fresh M.gives J.reacts J.steps J.refuses) M.left O.options O.made O.turned)
            self.old.whole self.old.faulted self.old.refused self.new.whole self.new.faulted
            self.new.refused }
    {
        self.faulted += 1;
        self.accepted += 1;
    }

    /// Counts an accepted connection that got no session, but the line `full`.
    pub(crate) fn refuse(
        &mut self,
        _roster: &Roster,
        _per_host: u16,
        _peer: &Peer,
        _told: &TcpStream,
    )
        requires full { HasNoPlace _roster.now _per_host (count_from
            (λ s. s.caller.peer) _peer.now (vec_items self.old.started)) }
        requires told { O.turned _told.now }
        requires more { self.old.accepted < 2 ^ 64 - 1 }
        ensures accepted { self.new.accepted ≡ self.old.accepted + 1 }
        ensures same { self.new.started ≡ self.old.started }
        ensures counts { (self.new.whole ≡ self.old.whole) × (self.new.faulted ≡ self.old.faulted) }
        ensures each { StillCounts
            (server_of (facts_of J.fresh M.gives J.reacts J.steps J.refuses) M.left O.options O.made O.turned)
            self.old.whole self.old.faulted self.old.refused self.new.whole self.new.faulted
            self.new.refused }
    {
        self.refused += 1;
        self.accepted += 1;
    }

    /// Returns the counts of the connections, once all sessions are joined.
    pub(crate) fn served(&self) -> Served
        requires { vec_len self.now.started ≡ 0 }
        ensures accepted { result.accepted ≡ self.now.accepted }
        ensures counts { (result.whole ≡ self.now.whole) × (result.faulted ≡ self.now.faulted)
            × (result.refused ≡ self.now.refused) }
    {
        Served {
            accepted: self.accepted,
            whole: self.whole,
            faulted: self.faulted,
            refused: self.refused,
        }
    }
}
