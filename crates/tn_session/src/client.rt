//! A running client session, from its first key to its report.

ghost use Rattle.std.specs.Prelude.{◌≡◌, IfOk, IfErr, IfSome};
ghost use Rattle.crossbeam_channel.specs.{Claims.{view, IsSeatAt}, Ends.sends_on};
ghost use Rattle.tn_session.specs.Client.{IsReadyForTwo, StandsBeside, AreTwoSettled, IsClientRun};
ghost use Rattle.tn_session.specs.{Client.{RunningClient, client_report}, Facts.client_result};
ghost use Rattle.tn_session.specs.{Session.IsRefusal, Stops.AreNewStops};
ghost use Rattle.tn_cores.specs.streams.Known.{known_reader, known_typing, known_writing};
ghost use Rattle.tn_cores.specs.streams.Sending.{IsFinished};

use crate::client_loop::run_core;
use crate::parties::{ClientPorts, Report};
use crate::session::MAILS;
use crate::stops::{Watched, make_stops};
use crate::threads::{ClientReturned, ClientStarted, ThreadLeft, start_reader};
use crate::transcript::Transcript;
use crate::workers::{
    AllRoles, CutKeys, CutNet, Knows, Mail, MailPass, MailReceiver, MailSeat, MailSender,
    ReaderPart, Sender, StopPass, StopSeat, Union, View,
};
use crossbeam_channel::bounded_with;
use std::alloc::{AllocError, Global};
use std::sync::{Arc, Wait};
use std::thread::Threads;
use tn_cores::client::{ClientProgress, Core};
use tn_cores::streams::{Drain, Finish, Source};
use tn_cores::{Gate, Place, SessionFault};
use tn_discipline::Limit;

// The core's ends of the mailbox.
#[derive(Drop)]
struct CoreEnds {
    to: MailSender,
    from: MailReceiver,
}

// The mailbox of a client's session, its ends and passes.
#[derive(Drop)]
struct Mailbox {
    ends: CoreEnds,
    pass: MailPass,
    net: MailSeat,
    keys: MailSeat,
}

// Makes the mailbox and splits its passes.
fn make_mailbox(alloc: Global) -> Result<Mailbox, AllocError>
    ensures { IfOk result (λ mailbox. IsReadyForTwo mailbox) }
{
    let (to, from, mut pass) = bounded_with::<Mail, View, AllRoles, Global>(alloc, MAILS)?;
    let net_to = to.try_clone()?;
    let keys_to = to.try_clone()?;
    let net = to.another::<CutNet>(&mut pass);
    let keys = to.another::<CutKeys>(&mut pass);
    Ok(Mailbox {
        ends: CoreEnds { to, from },
        pass,
        net: MailSeat {
            to: net_to,
            pass: net,
        },
        keys: MailSeat {
            to: keys_to,
            pass: keys,
        },
    })
}

// The parts that a session runs on.
#[derive(Drop)]
struct Outfit<G> {
    mailbox: Mailbox,
    stops: StopSeat,
    net_gate: Arc<G, Global>,
    keys_gate: Arc<G, Global>,
    watched: Watched<G>,
}

fn equip<G: Gate + Drop>(alloc: Global, gate: Arc<G, Global>) -> Result<Outfit<G>, AllocError>
    ensures mailbox { IfOk result (λ outfit. IsReadyForTwo outfit.mailbox) }
    ensures stops { IfOk result (λ outfit. AreNewStops outfit.watched.stops outfit.stops) }
{
    let net_gate = Arc::try_clone(&gate)?;
    let keys_gate = Arc::try_clone(&gate)?;
    let (teller, stops) = make_stops(alloc)?;
    let mailbox = make_mailbox(alloc)?;
    Ok(Outfit {
        mailbox,
        stops,
        net_gate,
        keys_gate,
        watched: Watched {
            gate,
            stops: teller,
        },
    })
}

// The readers of a session: of the network and of the keys.
#[derive(Drop)]
struct Readers<N, K> {
    net: N,
    keys: K,
}

// Joins the passes, so that their lists are compared, and splits them again.
fn settle(
    to: &MailSender,
    mut pass: MailPass,
    net: MailPass,
    keys: MailPass,
    told: StopPass,
    transcript: Transcript,
) -> ClientPorts
    requires { IsSeatAt (sends_on to.now) pass × IsSeatAt (sends_on to.now) net ×
        IsSeatAt (sends_on to.now) keys }
    ensures settled { AreTwoSettled (view pass) (view net) (view keys)
        (view result.net) (view result.keys)
        (view result.core) }
    ensures told { result.told ≡ told }
    ensures transcript { result.transcript ≡ transcript }
{
    to.absorb::<Union>(&mut pass, net);
    to.absorb::<Union>(&mut pass, keys);
    to.learn_as::<Knows>(&mut pass);
    let net = to.another::<CutNet>(&mut pass);
    let keys = to.another::<CutKeys>(&mut pass);
    ClientPorts {
        keys,
        net,
        core: pass,
        told,
        transcript,
    }
}

fn report(progress: ClientProgress) -> Report
    ensures { result ≡ client_report progress }
{
    Report {
        ended: progress.ended,
        pieces: progress.pieces,
        entries: 0,
        stops: 0,
    }
}

// The parts with which this thread goes on as the core's: the threads that were started, its side
// of the mailbox, and its gate.
struct Beside<N: Source, K: Source, G> {
    started: ClientStarted<N, K>,
    ends: CoreEnds,
    pass: MailPass,
    watched: Watched<G>,
}

// Starts the threads that read. If one cannot be started, no more goes to the network, and the
// other has been joined: it may wait for what the server answers to that.
fn start_readers<R, N, K, W, G>(
    rt: R,
    alloc: Global,
    readers: Readers<N, K>,
    outfit: Outfit<G>,
    writer: &mut W,
) -> Option<Beside<N, K, G>>
where
    R: Threads + Wait + Copy + Send + 'static,
    N: Source + Drop + Send + 'static,
    K: Source + Drop + Send + 'static,
    W: Finish,
    G: Gate + Drop + Send + Sync + 'static,
    requires mailbox { IsReadyForTwo outfit.mailbox }
    requires stops { AreNewStops outfit.watched.stops outfit.stops }
    ensures stands { IfSome result (λ beside.
        StandsBeside beside.ends beside.pass beside.watched.stops beside.started.net.promise
        beside.started.keys.promise) }
    ensures net { IfSome result (λ beside. beside.started.net.promise.reader.value ≡ readers.net) }
    ensures keys { IfSome result
        (λ beside. beside.started.keys.promise.reader.value ≡ readers.keys) }
    ensures unwritten { IfSome result (λ _. writer.new ≡ writer.old) }
{
    let Mailbox {
        ends,
        pass,
        net,
        keys,
    } = outfit.mailbox;
    let part = ReaderPart {
        who: Sender::Net,
        job: None,
        place: Place::NetPiece,
        gate: outfit.net_gate,
    };
    let Some(net) = start_reader(rt, alloc, net, readers.net, part, None, None) else {
        writer.finish();
        return None;
    };
    let part = ReaderPart {
        who: Sender::Keys,
        job: None,
        place: Place::KeysPiece,
        gate: outfit.keys_gate,
    };
    let stops = Some(outfit.stops);
    let Some(keys) = start_reader(rt, alloc, keys, readers.keys, part, None, stops) else {
        writer.finish();
        drop(ends);
        net.join(&rt);
        return None;
    };
    Some(Beside {
        started: ClientStarted { net, keys },
        ends,
        pass,
        watched: outfit.watched,
    })
}

// Runs this thread as the core's, next to those that were started. On each path out of it they have
// been joined.
fn run_beside<R, N, K, W, S, G>(
    rt: &R,
    alloc: Global,
    beside: Beside<N, K, G>,
    core: &mut Core,
    writer: &mut W,
    screen: &mut S,
) -> Result<(Report, ClientPorts), SessionFault>
where
    R: Threads + Wait,
    N: Source,
    K: Source,
    W: Finish,
    S: Drain,
    G: Gate + Drop,
    requires stands { StandsBeside beside.ends beside.pass beside.watched.stops
        beside.started.net.promise
        beside.started.keys.promise }
    ensures fault { IfErr result (λ fault. fault ≡ SessionFault.Channel) }
    ensures ran { IfOk result (λ r.
        IsClientRun core.old
        (known_typing K.remaining K.foretold K.sizes K.words K.controls
        beside.started.keys.promise.reader.value)
        (known_reader N.remaining N.foretold N.sizes N.words
        beside.started.net.promise.reader.value)
        (known_writing W.contents W.told writer.old writer.new)
        (known_writing S.contents S.told screen.old screen.new) (client_result r.0 r.1)) }
    ensures finished { IfOk result (λ r. IsFinished (W.sending writer.old) (W.sending writer.new)) }
{
    let Beside {
        started,
        ends,
        mut pass,
        mut watched,
    } = beside;
    let Some(transcript) = run_core(
        rt,
        alloc,
        &ends.from,
        &mut pass,
        core,
        writer,
        screen,
        &mut watched,
    ) else {
        writer.finish();
        drop(ends);
        started.join(rt);
        return Err(SessionFault::Channel);
    };
    let Some(returned) = started.join(rt) else {
        return Err(SessionFault::Channel);
    };
    let ClientReturned { net, keys } = returned;
    let ThreadLeft { pass: keys, stops } = keys;
    let told = watched.stops.settle(stops);
    let ports = settle(&ends.to, pass, net, keys, told, transcript);
    Ok((report(core.progress()), ports))
}

/// Runs a client's session over a connection, and returns its report when it has ended. It takes
/// the connection's reader and writer, the user's keys and screen, and a window of this size, in
/// characters, whose lines have at most `limit` bytes. `gate` watches the threads.
///
/// # Errors
///
/// An error says nothing of what was handled before; all other faults end in the report.
///
/// - `Memory`: there is no memory for the session.
/// - `Start`: a thread cannot be started.
/// - `Channel`: the other end of a channel is gone.
pub fn client_session<R, N, K, W, S, G>(
    rt: R,
    alloc: Global,
    net_reader: N,
    keys_reader: K,
    net_writer: &mut W,
    screen: &mut S,
    width: u16,
    height: u16,
    limit: Limit,
    gate: Arc<G, Global>,
) -> Result<(Report, ClientPorts), SessionFault>
where
    R: Threads + Wait + Copy + Send + 'static,
    N: Source + Drop + Send + 'static,
    K: Source + Drop + Send + 'static,
    W: Finish,
    S: Drain,
    G: Gate + Drop + Send + Sync + 'static,
    ensures fault { IfErr result IsRefusal }
    ensures ran { IfOk result (λ r.
        RunningClient (record { width = width; height = height; limit = limit })
        (known_typing K.remaining K.foretold K.sizes K.words K.controls keys_reader)
        (known_reader N.remaining N.foretold N.sizes N.words net_reader)
        (known_writing W.contents W.told net_writer.old net_writer.new)
        (known_writing S.contents S.told screen.old screen.new) (client_result r.0 r.1)) }
    ensures finished { IfOk result
        (λ r. IsFinished (W.sending net_writer.old) (W.sending net_writer.new)) }
{
    let Ok(mut core) = Core::start(alloc, width, height, limit) else {
        return Err(SessionFault::Memory);
    };
    let Ok(outfit) = equip(alloc, gate) else {
        return Err(SessionFault::Memory);
    };
    let readers = Readers {
        net: net_reader,
        keys: keys_reader,
    };
    let Some(beside) = start_readers(rt, alloc, readers, outfit, net_writer) else {
        return Err(SessionFault::Start);
    };
    run_beside(&rt, alloc, beside, &mut core, net_writer, screen)
}
