//! A running session, from its first job to its report.

ghost use Rattle.std.specs.Prelude.{◌≡◌, ◌≢◌, [], ◌∷◌, None, Some, IfOk, IfErr, IfSome, IsErrOf};
ghost use Rattle.crossbeam_channel.specs.{Claims.{view, IsSeatAt}, Ends.{sends_on, receives_on}};
ghost use Rattle.tn_session.specs.workers.{Acts.job_acts, Mailbox.sender, Turning.{IsQueue, ids_of, jobs_of}};
ghost use Rattle.tn_session.specs.{workers.Stops.StopsStay, Facts.{job_facts, session_result}};
ghost use Rattle.tn_session.specs.{declared.workers.mail.Sender.TheVariants.{Desk, Back}, Stops.AreNewStops};
ghost use Rattle.tn_session.specs.Session.{RunningSession, report_of, IsBegun, IsOpening, IsRun, IsRefusal};
ghost use Rattle.tn_session.specs.{Session.{IsOfThreads, RunsOn}, Joining.{IsReady, handler}};
ghost use Rattle.tn_session.specs.{Notes.{no_notes, noted_of}, Turns.StaysInReach};
ghost use Rattle.tn_session.specs.Makers.{AreAll, GivesJobs, IsMakerFault, begins};
ghost use Rattle.tn_cores.specs.{queue.Queue.{putter, taker}, streams.Known.{known_reader, known_writing}};
ghost use Rattle.tn_cores.specs.{streams.Sending.{StaysOpen, IsFinished}, server.Welcoming.too_far_ahead};
ghost use Rattle.tn_server.specs.declared.openings.Opening.TheVariants.{Keys};

use crate::credit::{CREDITS, make_step_credits};
use crate::joining::settle;
use crate::making::{Made, make_jobs};
use crate::parties::{Maker, Ports, Report};
use crate::stops::{Watched, make_stops};
use crate::term::{Ends, Passes, run_term};
use crate::threads::{
    BackPart, BackSays, DeskPart, DeskSays, Started, ThreadLeft, start_back, start_desk,
    start_reader,
};
use crate::transcript::Output;
use crate::workers::{
    AllRoles, Credit, CreditSeat, CreditTally, CutBack, CutDesk, CutNet, CutReader, EntryPass,
    EntrySeat, Freely, Mail, MailPass, MailSeat, ReaderPart, Runner, Sender, StepCredits, View,
};
use crossbeam_channel::bounded_with;
use std::alloc::{AllocError, Global};
use std::collections::VecDeque;
use std::sync::{Arc, Wait};
use std::thread::{PromisedHandle, Threads};
use tn_cores::queue::{CutTaker, Hand, InTurn};
use tn_cores::server::laws::{all_goes_before_a_hang_up, faults_have_causes, pieces_are_heard};
use tn_cores::server::{ServerProgress, Term};
use tn_cores::streams::{Finish, Source};
use tn_cores::{Gate, Place, SessionFault};
use tn_discipline::{Entry, Limit, Settings};
use tn_jobs::{Job, JobId};
use tn_server::{Approach, Editing, Opening};

/// The most messages that the mailbox holds.
pub(crate) const MAILS: usize = 64;

/// The most entries that the channel of entries holds.
const ENTRIES: usize = 2;

// The channels of a session, their ends and passes.
#[derive(Drop)]
struct Channels {
    ends: Ends,
    passes: Passes,
    net: MailSeat,
    desk: MailSeat,
    back: MailSeat,
    take: EntrySeat,
    credits: CreditSeat,
    step_credits: StepCredits,
}

// Makes the channels and splits their passes.
fn make_channels(alloc: Global) -> Result<Channels, AllocError>
    ensures { IfOk result (λ channels. IsReady channels) }
{
    let (to, from, mut mails) = bounded_with::<Mail, View, AllRoles, Global>(alloc, MAILS)?;
    let net_to = to.try_clone()?;
    let desk_to = to.try_clone()?;
    let back_to = to.try_clone()?;
    let (put, take, mut hand) = bounded_with::<Option<Entry>, Hand<Option<Entry>>, InTurn, Global>(
        alloc, ENTRIES,
    )?;
    let (give, credits, mut credit) = bounded_with::<Credit, CreditTally, Freely, Global>(
        alloc, CREDITS,
    )?;
    let (step_giver, step_credits) = make_step_credits(alloc)?;
    let net = to.another::<CutNet>(&mut mails);
    let desk = to.another::<CutDesk>(&mut mails);
    let back = to.another::<CutBack>(&mut mails);
    let took = put.another::<CutTaker>(&mut hand);
    let taken = give.another::<CutReader>(&mut credit);
    Ok(Channels {
        ends: Ends {
            to,
            from,
            put,
            give,
        },
        passes: Passes {
            mails,
            hand,
            give: credit,
            step_credits: step_giver,
        },
        net: MailSeat {
            to: net_to,
            pass: net,
        },
        desk: MailSeat {
            to: desk_to,
            pass: desk,
        },
        back: MailSeat {
            to: back_to,
            pass: back,
        },
        take: EntrySeat {
            from: take,
            pass: took,
        },
        credits: CreditSeat {
            from: credits,
            pass: taken,
        },
        step_credits,
    })
}

// The jobs that a session runs: the one in the foreground, and those in the background.
#[derive(Drop)]
struct Posts<J> {
    first: JobId,
    job: J,
    queue: VecDeque<Runner<J>>,
    tostop: bool,
}

// The jobs, the terminal and its opening messages.
#[derive(Drop)]
struct Begun<J> {
    posts: Posts<J>,
    term: Term,
    output: Output,
}

// Makes the jobs and starts the terminal.
fn begin<M: Maker + Drop>(
    alloc: Global,
    settings: Settings,
    limit: Limit,
    approach: Approach,
    mut maker: M,
) -> Result<Begun<M::Job>, SessionFault>
    ensures fault { IfErr result (IsMakerFault (M.left maker)) }
    ensures begun { IfOk result (λ begun.
        IsBegun M.Job.fresh
        (record { canon = record { settings = settings; limit = limit }; approach = approach })
        begun) }
    ensures all { IfOk result (λ begun. AreAll (M.left maker) (ids_of begun.posts.queue.items)) }
    ensures in_order { IfOk result (λ begun.
        GivesJobs M.gives maker (begun.posts.job ∷ jobs_of begun.posts.queue.items)) }
{
    let tostop = settings.flags.tostop;
    let Made {
        table,
        first,
        job,
        queue,
    } = make_jobs(alloc, &mut maker)?;
    let mut output = Output::new(alloc);
    let Ok(term) = Term::start(alloc, settings, limit, approach, table, &mut output.out) else {
        return Err(SessionFault::Memory);
    };
    let posts = Posts {
        first,
        job,
        queue,
        tostop,
    };
    Ok(Begun {
        posts,
        term,
        output,
    })
}

// Writes the opening messages. If that fails, nothing has any effect from then on.
fn open<W: Finish>(term: &mut Term, output: &mut Output, writer: &mut W)
    ensures out { output.new.out.items ≡ [] }
    ensures opened { IsOpening term.old output.old.out.items
        (known_writing W.contents W.told writer.old writer.new) (noted_of output.old.transcript)
        (noted_of output.new.transcript) term.new }
    ensures going { StaysOpen (W.sending writer.old) (W.sending writer.new) }
{
    if output.write_out(writer) {
        return;
    }
    term.write_failed();
}

fn report(progress: ServerProgress) -> Report
    ensures { result ≡ report_of progress }
{
    Report {
        ended: progress.ended,
        pieces: progress.pieces,
        entries: progress.entries,
        stops: progress.stops,
    }
}

// Runs this thread as the terminal's, next to those that were started. On each path out of it they
// have been joined. It takes eight arguments, since what is lent and what is given to it go
// together nowhere else.
fn run_beside<R, Rd, W, J, G>(
    rt: &R,
    started: Started<Rd, J>,
    ends: Ends,
    mut passes: Passes,
    term: &mut Term,
    mut output: Output,
    writer: &mut W,
    mut watched: Watched<G>,
) -> Result<(Report, Ports), SessionFault>
where
    R: Threads + Wait,
    Rd: Source,
    W: Finish,
    J: Job,
    G: Gate + Drop,
    requires mailbox { (receives_on ends.from ≡ sends_on ends.to) ×
        IsSeatAt (sends_on ends.to) passes.mails × (view passes.mails ≡ handler []) }
    requires entries { IsSeatAt (sends_on ends.put) passes.hand × (view passes.hand ≡ putter []) }
    requires credits { IsSeatAt (sends_on ends.give) passes.give }
    requires step_credits { IsSeatAt (sends_on passes.step_credits.to) passes.step_credits.pass }
    requires net { (sends_on started.net.promise.to.value ≡ sends_on ends.to) ×
        (started.net.promise.who ≡ Sender.Net) × (started.net.promise.stops.value ≡ None) ×
        (started.net.promise.job ≡ Some started.desk.promise.id) }
    requires desk { (sends_on started.desk.promise.to.value ≡ sends_on ends.to) ×
        (receives_on started.desk.promise.from.value ≡ sends_on ends.put) }
    requires back { sends_on started.back.promise.to.value ≡ sends_on ends.to }
    requires out { output.out.items ≡ [] }
    requires stops { IfSome started.back.promise.stops.value
        (λ seat. AreNewStops watched.stops seat) }
    requires teller { IsSeatAt (sends_on watched.stops.to) watched.stops.pass ×
        (view watched.stops.pass ≡ putter []) }
    ensures fault { IfErr result (λ fault. fault ≡ SessionFault.Channel) }
    ensures ran { IfOk result (λ r.
        RunsOn (job_acts J.reacts J.steps J.refuses)
        (record {
          first = started.desk.promise.id;
          job = started.desk.promise.job.value;
          queue = started.back.promise.queue.value.items;
          tostop = started.back.promise.tostop;
        })
        (known_reader Rd.remaining Rd.foretold Rd.sizes Rd.words started.net.promise.reader.value)
        (known_writing W.contents W.told writer.old writer.new)
        (noted_of output.transcript) term.old
        (session_result r.0 r.1)) }
    ensures in_reach { IfOk result (λ r. StaysInReach term.old r.0.ended) }
    ensures finished { IfOk result (λ r. IsFinished (W.sending writer.old) (W.sending writer.new)) }
{
    let Some(()) = run_term(
        rt,
        &ends,
        &mut passes,
        term,
        &mut output,
        writer,
        &mut watched,
    ) else {
        writer.finish();
        drop(ends);
        started.join(rt);
        return Err(SessionFault::Channel);
    };
    let Some(returned) = started.join(rt) else {
        return Err(SessionFault::Channel);
    };
    let ports = settle(&ends, passes, returned, watched.stops, output.transcript);
    Ok((report(term.progress()), ports))
}

// The parts of the thread that reads the network: its seat at the mailbox, the one at which it
// takes credits, and its gate.
#[derive(Drop)]
struct NetPart<G> {
    seat: MailSeat,
    credits: CreditSeat,
    gate: Arc<G, Global>,
}

// The parts that a session runs on: those of each thread, and those of this one.
#[derive(Drop)]
struct Outfit<G> {
    net: NetPart<G>,
    desk: DeskPart<G>,
    back: BackPart<G>,
    ends: Ends,
    passes: Passes,
    watched: Watched<G>,
}

fn equip<G: Gate + Drop>(alloc: Global, gate: Arc<G, Global>) -> Result<Outfit<G>, AllocError>
    ensures channels { IfOk result (λ outfit. IsReady (record {
      ends = outfit.ends;
      passes = outfit.passes;
      net = outfit.net.seat;
      desk = outfit.desk.seat;
      back = outfit.back.seat;
      take = outfit.desk.entries;
      credits = outfit.net.credits;
      step_credits = outfit.back.credits;
    })) }
    ensures stops { IfOk result (λ outfit. AreNewStops outfit.watched.stops outfit.back.stops) }
{
    let net_gate = Arc::try_clone(&gate)?;
    let desk_gate = Arc::try_clone(&gate)?;
    let back_gate = Arc::try_clone(&gate)?;
    let (teller, stops) = make_stops(alloc)?;
    let channels = make_channels(alloc)?;
    Ok(Outfit {
        net: NetPart {
            seat: channels.net,
            credits: channels.credits,
            gate: net_gate,
        },
        desk: DeskPart {
            seat: channels.desk,
            entries: channels.take,
            gate: desk_gate,
        },
        back: BackPart {
            seat: channels.back,
            stops,
            credits: channels.step_credits,
            gate: back_gate,
        },
        ends: channels.ends,
        passes: channels.passes,
        watched: Watched {
            gate,
            stops: teller,
        },
    })
}

// The threads of the jobs that were started.
struct JobThreads<J: Job> {
    desk: PromisedHandle<Option<(MailPass, EntryPass)>, DeskSays<J>>,
    back: PromisedHandle<Option<ThreadLeft>, BackSays<J>>,
}

// Starts the threads of the jobs. If one cannot be started, it returns that of the foreground job
// if that was.
fn start_jobs<R, J, G>(
    rt: R,
    alloc: Global,
    posts: Posts<J>,
    desk: DeskPart<G>,
    back: BackPart<G>,
) -> Result<JobThreads<J>, Option<PromisedHandle<Option<(MailPass, EntryPass)>, DeskSays<J>>>>
where
    R: Threads + Wait + Copy + Send + 'static,
    J: Job + Send + 'static,
    G: Gate + Drop + Send + Sync + 'static,
    requires desk { IsSeatAt (sends_on desk.seat.to) desk.seat.pass ×
        (view desk.seat.pass ≡ sender Desk []) }
    requires entries { IsSeatAt (receives_on desk.entries.from) desk.entries.pass ×
        (view desk.entries.pass ≡ taker []) }
    requires back { IsSeatAt (sends_on back.seat.to) back.seat.pass ×
        (view back.seat.pass ≡ sender Back []) }
    requires stops { StopsStay (Some back.stops) (Some back.stops) }
    requires credits { IsSeatAt (receives_on back.credits.seat.from) back.credits.seat.pass }
    requires fresh { J.fresh posts.job × IsQueue J.fresh posts.queue.items }
    ensures desk { IfOk result
        (λ jobs. (sends_on jobs.desk.promise.to.value ≡ sends_on desk.seat.to) ×
        (receives_on jobs.desk.promise.from.value ≡ receives_on desk.entries.from) ×
        (jobs.desk.promise.id ≡ posts.first) × (jobs.desk.promise.job.value ≡ posts.job)) }
    ensures back { IfOk result
        (λ jobs. (sends_on jobs.back.promise.to.value ≡ sends_on back.seat.to) ×
        (jobs.back.promise.queue.value ≡ posts.queue) × (jobs.back.promise.tostop ≡ posts.tostop) ×
        (jobs.back.promise.stops.value ≡ Some back.stops)) }
{
    let Some(desk) = start_desk(rt, alloc, desk, posts.first, posts.job) else {
        return Err(None);
    };
    match start_back(rt, alloc, back, posts.queue, posts.tostop) {
        Some(back) => Ok(JobThreads { desk, back }),
        None => Err(Some(desk)),
    }
}

// Starts the threads, and runs this one as the terminal's. On each path out of it every thread that
// was started has been joined. It takes eight arguments, since what is lent and what is given to it
// go together nowhere else.
fn run<R, Rd, W, J, G>(
    rt: R,
    alloc: Global,
    reader: Rd,
    writer: &mut W,
    posts: Posts<J>,
    outfit: Outfit<G>,
    term: &mut Term,
    output: Output,
) -> Result<(Report, Ports), SessionFault>
where
    R: Threads + Wait + Copy + Send + 'static,
    Rd: Source + Drop + Send + 'static,
    W: Finish,
    J: Job + Send + 'static,
    G: Gate + Drop + Send + Sync + 'static,
    requires ready { IsReady (record {
      ends = outfit.ends;
      passes = outfit.passes;
      net = outfit.net.seat;
      desk = outfit.desk.seat;
      back = outfit.back.seat;
      take = outfit.desk.entries;
      credits = outfit.net.credits;
      step_credits = outfit.back.credits;
    }) }
    requires stops { AreNewStops outfit.watched.stops outfit.back.stops }
    requires fresh { J.fresh posts.job × IsQueue J.fresh posts.queue.items }
    requires out { output.out.items ≡ [] }
    ensures fault { IfErr result IsOfThreads }
    ensures ran { IfOk result (λ r.
        RunsOn (job_acts J.reacts J.steps J.refuses)
        (record {
          first = posts.first;
          job = posts.job;
          queue = posts.queue.items;
          tostop = posts.tostop;
        })
        (known_reader Rd.remaining Rd.foretold Rd.sizes Rd.words reader)
        (known_writing W.contents W.told writer.old writer.new)
        (noted_of output.transcript) term.old
        (session_result r.0 r.1)) }
    ensures in_reach { IfOk result (λ r. StaysInReach term.old r.0.ended) }
    ensures finished { IfOk result (λ r. IsFinished (W.sending writer.old) (W.sending writer.new)) }
{
    let Outfit {
        net,
        desk,
        back,
        ends,
        passes,
        watched,
    } = outfit;
    let part = ReaderPart {
        who: Sender::Net,
        job: Some(posts.first),
        place: Place::NetPiece,
        gate: net.gate,
    };
    let Some(net) = start_reader(rt, alloc, net.seat, reader, part, Some(net.credits), None) else {
        writer.finish();
        return Err(SessionFault::Start);
    };
    let jobs = match start_jobs(rt, alloc, posts, desk, back) {
        Ok(jobs) => jobs,
        Err(desk) => {
            writer.finish();
            drop(ends);
            net.join(&rt);
            if let Some(desk) = desk {
                desk.join(&rt);
            }
            return Err(SessionFault::Start);
        },
    };
    let JobThreads { desk, back } = jobs;
    let started = Started { net, desk, back };
    run_beside(&rt, started, ends, passes, term, output, writer, watched)
}

// Writes the opening messages and runs the threads. It takes eight arguments, as `run` does.
fn run_begun<R, Rd, W, J, G>(
    rt: R,
    alloc: Global,
    reader: Rd,
    writer: &mut W,
    posts: Posts<J>,
    term: &mut Term,
    mut output: Output,
    gate: Arc<G, Global>,
) -> Result<(Report, Ports), SessionFault>
where
    R: Threads + Wait + Copy + Send + 'static,
    Rd: Source + Drop + Send + 'static,
    W: Finish,
    J: Job + Send + 'static,
    G: Gate + Drop + Send + Sync + 'static,
    requires fresh { J.fresh posts.job × IsQueue J.fresh posts.queue.items }
    requires transcript { noted_of output.transcript ≡ no_notes }
    ensures fault { IfErr result IsRefusal }
    ensures ran { IfOk result (λ r.
        IsRun (job_acts J.reacts J.steps J.refuses)
        (record {
          first = posts.first;
          job = posts.job;
          queue = posts.queue.items;
          tostop = posts.tostop;
        })
        term.old output.out.items (known_reader Rd.remaining Rd.foretold Rd.sizes Rd.words reader)
        (known_writing W.contents W.told writer.old writer.new) (session_result r.0 r.1)) }
    ensures in_reach { IfOk result (λ r. StaysInReach term.old r.0.ended) }
    ensures finished { IfOk result (λ r. IsFinished (W.sending writer.old) (W.sending writer.new)) }
{
    let Ok(outfit) = equip(alloc, gate) else {
        return Err(SessionFault::Memory);
    };
    open(term, &mut output, writer);
    run(rt, alloc, reader, writer, posts, outfit, term, output)
}

/// Runs a session over a connection, and returns its report when it has ended. It takes the
/// connection's reader and writer, a terminal with these settings whose lines have at most `limit`
/// bytes, the side that edits, and the maker of the jobs. `gate` watches the threads.
///
/// A piece is handled only if at most 511 entries wait, so that no report says that too many
/// entries waited. Their lines have at most 60,000 bytes then, so that a session holds at most 64
/// KB of lines.
///
/// # Errors
///
/// An error says nothing of what was handled before; all other faults end in the report.
///
/// - `Memory`: there is no memory for the session or a job.
/// - `Start`: a thread cannot be started, or the maker has no first job.
/// - `Channel`: the other end of a channel is gone.
pub fn serve_session<R, Rd, W, M, G>(
    rt: R,
    alloc: Global,
    reader: Rd,
    writer: &mut W,
    settings: Settings,
    limit: Limit,
    editing: Editing,
    maker: M,
    gate: Arc<G, Global>,
) -> Result<(Report, Ports), SessionFault>
where
    R: Threads + Wait + Copy + Send + 'static,
    Rd: Source + Drop + Send + 'static,
    W: Finish,
    M: Maker + Drop,
    M::Job: Send + 'static,
    G: Gate + Drop + Send + Sync + 'static,
    ensures fault { IfErr result IsRefusal }
    ensures none { M.left maker ≡ Some 0 → IsErrOf result SessionFault.Start }
    ensures ran { IfOk result (λ r.
        RunningSession
        (job_facts (begins M.Job.fresh M.gives maker) M.Job.reacts M.Job.steps M.Job.refuses)
        (M.left maker)
        (record {
          canon = record { settings = settings; limit = limit };
          approach = record { opening = Keys; editing = editing };
        })
        (known_reader Rd.remaining Rd.foretold Rd.sizes Rd.words reader)
        (known_writing W.contents W.told writer.old writer.new) (session_result r.0 r.1)) }
    ensures in_reach { IfOk result (λ r. r.0.ended ≢ too_far_ahead) }
    ensures finished { IfOk result (λ r. IsFinished (W.sending writer.old) (W.sending writer.new)) }
{
    let approach = Approach {
        opening: Opening::Keys,
        editing,
    };
    serve_session_with(
        rt, alloc, reader, writer, settings, limit, approach, maker, gate,
    )
}

/// Runs a session as `serve_session` does, and with its errors, by this approach to the client.
pub fn serve_session_with<R, Rd, W, M, G>(
    rt: R,
    alloc: Global,
    reader: Rd,
    writer: &mut W,
    settings: Settings,
    limit: Limit,
    approach: Approach,
    maker: M,
    gate: Arc<G, Global>,
) -> Result<(Report, Ports), SessionFault>
where
    R: Threads + Wait + Copy + Send + 'static,
    Rd: Source + Drop + Send + 'static,
    W: Finish,
    M: Maker + Drop,
    M::Job: Send + 'static,
    G: Gate + Drop + Send + Sync + 'static,
    ensures fault { IfErr result IsRefusal }
    ensures none { M.left maker ≡ Some 0 → IsErrOf result SessionFault.Start }
    ensures ran { IfOk result (λ r.
        RunningSession
        (job_facts (begins M.Job.fresh M.gives maker) M.Job.reacts M.Job.steps M.Job.refuses)
        (M.left maker)
        (record { canon = record { settings = settings; limit = limit }; approach = approach })
        (known_reader Rd.remaining Rd.foretold Rd.sizes Rd.words reader)
        (known_writing W.contents W.told writer.old writer.new) (session_result r.0 r.1)) }
    ensures in_reach { IfOk result (λ r. r.0.ended ≢ too_far_ahead) }
    ensures finished { IfOk result (λ r. IsFinished (W.sending writer.old) (W.sending writer.new)) }
{
    pieces_are_heard();
    all_goes_before_a_hang_up();
    faults_have_causes();
    let begun = begin(alloc, settings, limit, approach, maker)?;
    let mut term = begun.term;
    run_begun(
        rt,
        alloc,
        reader,
        writer,
        begun.posts,
        &mut term,
        begun.output,
        gate,
    )
}
