//! Starts the threads of a session, each with a promise of what it gives back, and joins them.

ghost use Rattle.std.specs.Prelude.{◌≡◌, [], false, None, Some, IfSome};
ghost use Rattle.crossbeam_channel.specs.{Claims.{view, IsSeatAt}, Ends.{sends_on, receives_on}};
ghost use Rattle.tn_session.specs.workers.{Acts.job_acts, Credits.IsSeated, Mailbox.sender};
ghost use Rattle.tn_session.specs.workers.{Reader.TypingSends, Stepping.AreSteps, Talk.{IsJob, IsTalk}};
ghost use Rattle.tn_session.specs.workers.Stops.{StopsStay, has_stopped};
ghost use Rattle.tn_session.specs.workers.Turning.{Holds, IsQueue, queue_of};
ghost use Rattle.tn_session.specs.declared.workers.mail.Sender.TheVariants.{Desk, Back};
ghost use Rattle.tn_cores.specs.{queue.Queue.taker, streams.Known.known_typing};

use crate::waiting::Waiting;
use crate::workers::{
    CreditSeat, EntryPass, EntryReceiver, EntrySeat, MailPass, MailSeat, MailSender, ReaderPart,
    Runner, Sender, StepCredits, StopSeat, run_back, run_desk, run_reader,
};
use std::alloc::Global;
use std::collections::VecDeque;
use std::marker::PhantomData;
use std::snapshot::Snapshot;
use std::sync::{Arc, Wait};
use std::thread;
use std::thread::{Promise, PromisedHandle, Threads};
use tn_cores::Gate;
use tn_cores::streams::Source;
use tn_jobs::{Job, JobId};

/// The parts that a thread which may be asked to stop gives back: its pass, and its seat for the
/// word to stop.
#[derive(Drop)]
pub(crate) struct ThreadLeft {
    pub(crate) pass: MailPass,
    pub(crate) stops: Option<StopSeat>,
}

/// The promise of a thread that reads: its sender, the job as whose text it sends last words, if it
/// does, and its seat if it may be asked to stop.
#[derive(Drop)]
pub(crate) struct ReaderSays<Rd> {
    to: Snapshot<MailSender>,
    reader: Snapshot<Rd>,
    who: Sender,
    job: Option<JobId>,
    stops: Snapshot<Option<StopSeat>>,
}

impl<Rd: Source> Promise<Option<ThreadLeft>> for ReaderSays<Rd> {
    ghost use Rattle.std.specs.Prelude.{IfSome};
    ghost use Rattle.crossbeam_channel.specs.{Claims.{view, IsSeatAt}, Ends.sends_on};
    ghost use Rattle.tn_session.specs.workers.{Reader.TypingSends, Stops.{StopsStay, has_stopped}};
    ghost use Rattle.tn_cores.specs.streams.Known.{known_typing};

    ghost kept_by = { λ p r.
        IfSome r (λ left. IsSeatAt (sends_on p.to.value) left.pass ×
        TypingSends p.who p.job (has_stopped left.stops)
        (known_typing Rd.remaining Rd.foretold Rd.sizes Rd.words Rd.controls p.reader.value)
        (view left.pass) ×
        StopsStay p.stops.value left.stops) };
}

/// The promise of the thread of the foreground job.
#[derive(Drop)]
pub(crate) struct DeskSays<J> {
    to: Snapshot<MailSender>,
    from: Snapshot<EntryReceiver>,
    id: JobId,
    job: Snapshot<J>,
}

impl<J: Job> Promise<Option<(MailPass, EntryPass)>> for DeskSays<J> {
    ghost use Rattle.std.specs.Prelude.{IfSome};
    ghost use Rattle.crossbeam_channel.specs.{Claims.{view, IsSeatAt}, Ends.{sends_on, receives_on}};
    ghost use Rattle.tn_session.specs.workers.{Acts.job_acts, Talk.{IsJob, IsTalk}};

    ghost kept_by = { λ p r.
        IfSome r (λ x. IsSeatAt (sends_on p.to.value) x.0 × IsSeatAt (receives_on p.from.value) x.1 ×
        IsTalk p.id (IsJob p.job.value) (job_acts J.reacts J.steps J.refuses) (view x.0) (view x.1)) };
}

/// The promise of the thread of the background jobs.
#[derive(Drop)]
pub(crate) struct BackSays<J> {
    to: Snapshot<MailSender>,
    queue: Snapshot<VecDeque<Runner<J>>>,
    tostop: bool,
    stops: Snapshot<Option<StopSeat>>,
    of: PhantomData<J>,
}

impl<J: Job> Promise<Option<ThreadLeft>> for BackSays<J> {
    ghost use Rattle.std.specs.Prelude.{IfSome};
    ghost use Rattle.crossbeam_channel.specs.{Claims.{view, IsSeatAt}, Ends.sends_on};
    ghost use Rattle.tn_session.specs.workers.{Acts.job_acts, Stepping.AreSteps, Turning.{Holds, queue_of}};
    ghost use Rattle.tn_session.specs.workers.Stops.{StopsStay, has_stopped};

    ghost kept_by = { λ p r.
        IfSome r (λ left. IsSeatAt (sends_on p.to.value) left.pass ×
        AreSteps (Holds p.queue.value.items) (job_acts J.reacts J.steps J.refuses)
        (queue_of p.tostop p.queue.value.items)
        (has_stopped left.stops) (view left.pass) ×
        StopsStay p.stops.value left.stops) };
}

/// Starts a thread that reads, for this part, with the seat at which it takes credits if it needs
/// any, and the one for the word to stop if it may get it. It returns `None` if the thread cannot
/// be started.
pub(crate) fn start_reader<
    R: Threads + Wait + Copy + Send + 'static,
    Rd: Source + Drop + Send + 'static,
    G: Gate + Drop + Send + Sync + 'static,
>(
    rt: R,
    alloc: Global,
    seat: MailSeat,
    reader: Rd,
    part: ReaderPart<G>,
    credits: Option<CreditSeat>,
    stops: Option<StopSeat>,
) -> Option<PromisedHandle<Option<ThreadLeft>, ReaderSays<Rd>>>
    requires mailbox { IsSeatAt (sends_on seat.to) seat.pass ×
        (view seat.pass ≡ sender part.who []) }
    requires credits { IsSeated credits }
    requires stops { StopsStay stops stops }
    ensures { IfSome result (λ h. (sends_on h.promise.to.value ≡ sends_on seat.to) ×
        (h.promise.reader.value ≡ reader) × (h.promise.who ≡ part.who) ×
        (h.promise.stops.value ≡ stops) ×
        (h.promise.job ≡ part.job)) }
{
    let promise = ReaderSays {
        to: Snapshot::of(&seat.to),
        reader: Snapshot::of(&reader),
        who: part.who,
        job: part.job,
        stops: Snapshot::of(&stops),
    };
    let work = move || -> Option<ThreadLeft>
        requires { IsSeatAt (sends_on seat.to) seat.pass × (view seat.pass ≡ sender part.who []) ×
            IsSeated credits × StopsStay stops stops }
        ensures { IfSome result (λ left. IsSeatAt (sends_on seat.to) left.pass ×
            TypingSends part.who part.job (has_stopped left.stops)
            (known_typing Rd.remaining Rd.foretold Rd.sizes Rd.words Rd.controls reader)
            (view left.pass) ×
            StopsStay stops left.stops) }
    {
        let mut seat = seat;
        let mut credits = credits;
        let mut stops = stops;
        let ran = run_reader(
            &Waiting(rt),
            alloc,
            &mut seat,
            reader,
            &part,
            &mut credits,
            &mut stops,
        );
        let pass = seat.pass;
        match ran {
            Some(()) => Some(ThreadLeft { pass, stops }),
            None => None,
        }
    };
    match thread::spawn_with(&rt, promise, work) {
        Ok(handle) => Some(handle),
        Err(_) => None,
    }
}

/// The parts of the thread of the foreground job besides its job: its seat at the mailbox, the one
/// at which it takes entries, and its gate.
#[derive(Drop)]
pub(crate) struct DeskPart<G> {
    pub(crate) seat: MailSeat,
    pub(crate) entries: EntrySeat,
    pub(crate) gate: Arc<G, Global>,
}

/// Starts the thread of the foreground job. It returns `None` if the thread cannot be started.
pub(crate) fn start_desk<
    R: Threads + Wait + Copy + Send + 'static,
    J: Job + Send + 'static,
    G: Gate + Drop + Send + Sync + 'static,
>(
    rt: R,
    alloc: Global,
    part: DeskPart<G>,
    id: JobId,
    job: J,
) -> Option<PromisedHandle<Option<(MailPass, EntryPass)>, DeskSays<J>>>
    requires mailbox { IsSeatAt (sends_on part.seat.to) part.seat.pass ×
        (view part.seat.pass ≡ sender Desk []) }
    requires entries { IsSeatAt (receives_on part.entries.from) part.entries.pass ×
        (view part.entries.pass ≡ taker []) }
    requires fresh { J.fresh job }
    ensures { IfSome result (λ h. (sends_on h.promise.to.value ≡ sends_on part.seat.to) ×
        (receives_on h.promise.from.value ≡ receives_on part.entries.from) × (h.promise.id ≡ id) ×
        (h.promise.job.value ≡ job)) }
{
    let DeskPart {
        seat,
        entries,
        gate,
    } = part;
    let promise = DeskSays {
        to: Snapshot::of(&seat.to),
        from: Snapshot::of(&entries.from),
        id,
        job: Snapshot::of(&job),
    };
    let work = move || -> Option<(MailPass, EntryPass)>
        requires { IsSeatAt (sends_on seat.to) seat.pass × (view seat.pass ≡ sender Desk []) ×
            (IsSeatAt (receives_on entries.from) entries.pass) × (view entries.pass ≡ taker []) ×
            J.fresh job }
        ensures { IfSome result (λ x. IsSeatAt (sends_on seat.to) x.0 ×
            IsSeatAt (receives_on entries.from) x.1 × IsTalk id (IsJob job)
            (job_acts J.reacts J.steps J.refuses) (view x.0) (view x.1)) }
    {
        let mut seat = seat;
        let mut entries = entries;
        match run_desk(
            &Waiting(rt),
            alloc,
            &mut seat,
            &mut entries,
            id,
            job,
            &*gate,
        ) {
            Some(()) => Some((seat.pass, entries.pass)),
            None => None,
        }
    };
    match thread::spawn_with(&rt, promise, work) {
        Ok(handle) => Some(handle),
        Err(_) => None,
    }
}

/// The parts of the thread of the background jobs besides them: its seat at the mailbox, the one
/// for the word to stop, the credits for its steps, and its gate.
#[derive(Drop)]
pub(crate) struct BackPart<G> {
    pub(crate) seat: MailSeat,
    pub(crate) stops: StopSeat,
    pub(crate) credits: StepCredits,
    pub(crate) gate: Arc<G, Global>,
}

/// Starts the thread of the background jobs. It returns `None` if the thread cannot be started.
pub(crate) fn start_back<
    R: Threads + Wait + Copy + Send + 'static,
    J: Job + Send + 'static,
    G: Gate + Drop + Send + Sync + 'static,
>(
    rt: R,
    alloc: Global,
    part: BackPart<G>,
    queue: VecDeque<Runner<J>>,
    tostop: bool,
) -> Option<PromisedHandle<Option<ThreadLeft>, BackSays<J>>>
    requires mailbox { IsSeatAt (sends_on part.seat.to) part.seat.pass ×
        (view part.seat.pass ≡ sender Back []) }
    requires jobs { IsQueue J.fresh queue.items }
    requires stops { StopsStay (Some part.stops) (Some part.stops) }
    requires credits { IsSeatAt (receives_on part.credits.seat.from) part.credits.seat.pass }
    ensures { IfSome result (λ h. (sends_on h.promise.to.value ≡ sends_on part.seat.to) ×
        (h.promise.queue.value ≡ queue) × (h.promise.tostop ≡ tostop) ×
        (h.promise.stops.value ≡ Some part.stops)) }
{
    let BackPart {
        seat,
        stops,
        credits,
        gate,
    } = part;
    let stops = Some(stops);
    let promise = BackSays {
        to: Snapshot::of(&seat.to),
        queue: Snapshot::of(&queue),
        tostop,
        stops: Snapshot::of(&stops),
        of: PhantomData,
    };
    let work = move || -> Option<ThreadLeft>
        requires { IsSeatAt (sends_on seat.to) seat.pass × (view seat.pass ≡ sender Back []) ×
            IsQueue J.fresh queue.items × StopsStay stops stops ×
            IsSeatAt (receives_on credits.seat.from) credits.seat.pass }
        ensures { IfSome result (λ left. IsSeatAt (sends_on seat.to) left.pass ×
            AreSteps (Holds queue.items) (job_acts J.reacts J.steps J.refuses)
            (queue_of tostop queue.items)
            (has_stopped left.stops) (view left.pass) × StopsStay stops left.stops) }
    {
        let mut seat = seat;
        let mut stops = stops;
        let mut credits = credits;
        let ran = run_back(
            &Waiting(rt),
            alloc,
            &mut seat,
            queue,
            tostop,
            &*gate,
            &mut stops,
            &mut credits,
        );
        let pass = seat.pass;
        match ran {
            Some(()) => Some(ThreadLeft { pass, stops }),
            None => None,
        }
    };
    match thread::spawn_with(&rt, promise, work) {
        Ok(handle) => Some(handle),
        Err(_) => None,
    }
}

/// The threads of a session that were started.
pub(crate) struct Started<Rd: Source, J: Job> {
    pub(crate) net: PromisedHandle<Option<ThreadLeft>, ReaderSays<Rd>>,
    pub(crate) desk: PromisedHandle<Option<(MailPass, EntryPass)>, DeskSays<J>>,
    pub(crate) back: PromisedHandle<Option<ThreadLeft>, BackSays<J>>,
}

/// The parts that the threads of a session give back.
#[derive(Drop)]
pub(crate) struct Returned {
    pub(crate) net: MailPass,
    pub(crate) desk: MailPass,
    pub(crate) took: EntryPass,
    pub(crate) back: ThreadLeft,
}

impl<Rd: Source, J: Job> Started<Rd, J> {
    /// Joins all threads. It returns `None` if a channel of one was disconnected.
    pub(crate) fn join<R: Threads + Wait>(self, rt: &R) -> Option<Returned>
        ensures net { IfSome result (λ r. IsSeatAt (sends_on self.net.promise.to.value) r.net ×
            (self.net.promise.stops.value ≡ None →
            TypingSends self.net.promise.who self.net.promise.job false
            (known_typing Rd.remaining Rd.foretold Rd.sizes Rd.words Rd.controls
            self.net.promise.reader.value)
            (view r.net))) }
        ensures desk { IfSome result (λ r. IsSeatAt (sends_on self.desk.promise.to.value) r.desk ×
            IsSeatAt (receives_on self.desk.promise.from.value) r.took ×
            IsTalk self.desk.promise.id (IsJob self.desk.promise.job.value)
            (job_acts J.reacts J.steps J.refuses)
            (view r.desk) (view r.took)) }
        ensures back { IfSome result
            (λ r. IsSeatAt (sends_on self.back.promise.to.value) r.back.pass ×
            AreSteps (Holds self.back.promise.queue.value.items)
            (job_acts J.reacts J.steps J.refuses)
            (queue_of self.back.promise.tostop self.back.promise.queue.value.items)
            (has_stopped r.back.stops)
            (view r.back.pass)) }
        ensures stays { IfSome result (λ r. StopsStay self.back.promise.stops.value r.back.stops) }
    {
        let Started { net, desk, back } = self;
        let net = net.join(rt);
        let desk = desk.join(rt);
        let back = back.join(rt);
        let ThreadLeft {
            pass: net,
            stops: _,
        } = net?;
        let (desk, took) = desk?;
        let back = back?;
        Some(Returned {
            net,
            desk,
            took,
            back,
        })
    }
}

/// The threads of a client's session that were started.
pub(crate) struct ClientStarted<N: Source, K: Source> {
    pub(crate) net: PromisedHandle<Option<ThreadLeft>, ReaderSays<N>>,
    pub(crate) keys: PromisedHandle<Option<ThreadLeft>, ReaderSays<K>>,
}

/// The parts that the threads of a client's session give back.
#[derive(Drop)]
pub(crate) struct ClientReturned {
    pub(crate) net: MailPass,
    pub(crate) keys: ThreadLeft,
}

impl<N: Source, K: Source> ClientStarted<N, K> {
    /// Joins both threads. It returns `None` if the mailbox of one was disconnected.
    pub(crate) fn join<R: Threads + Wait>(self, rt: &R) -> Option<ClientReturned>
        ensures net { IfSome result (λ r. IsSeatAt (sends_on self.net.promise.to.value) r.net ×
            (self.net.promise.stops.value ≡ None →
            TypingSends self.net.promise.who self.net.promise.job false
            (known_typing N.remaining N.foretold N.sizes N.words N.controls
            self.net.promise.reader.value)
            (view r.net))) }
        ensures keys { IfSome result
            (λ r. IsSeatAt (sends_on self.keys.promise.to.value) r.keys.pass ×
            TypingSends self.keys.promise.who self.keys.promise.job (has_stopped r.keys.stops)
            (known_typing K.remaining K.foretold K.sizes K.words K.controls
            self.keys.promise.reader.value)
            (view r.keys.pass)) }
        ensures stays { IfSome result (λ r. StopsStay self.keys.promise.stops.value r.keys.stops) }
    {
        let ClientStarted { net, keys } = self;
        let net = net.join(rt);
        let keys = keys.join(rt);
        let ThreadLeft {
            pass: net,
            stops: _,
        } = net?;
        let keys = keys?;
        Some(ClientReturned { net, keys })
    }
}
