//! `tn connect`: a client's session over a connection.

ghost use Rattle.std.specs.Prelude.{◌≡◌, ◌≢◌, [], Err, IfErr, IfOk, IsOk, Ok, OnErr, Some, false, IsFalse};
ghost use Rattle.std.specs.Prelude.{IsTrue};
ghost use Rattle.crossbeam_channel.specs.{Claims.view, Ends.sends_on};
ghost use Rattle.tn_connect.specs.Clients.{ConnectsBy, RunsClient, RunsWriting, connection_of, foreseen};
ghost use Rattle.tn_connect.specs.{Clients.{keyboard_of, text_by, window_of}, Faults.IsOfNetwork};
ghost use Rattle.tn_connect.specs.Sent.{TookWhatWasWritten};
ghost use Rattle.tn_cores.specs.{Ending.EndsWhole, queue.Queue.putter, streams.Known.known_typing};
ghost use Rattle.tn_net.specs.{network.{Asked.ReachesBy, Dialing.suits}, Ends.IsNew, Logs.logged};
ghost use Rattle.tn_net.specs.{Queue.{IsNamed, IsSent, put_bytes}, declared.sending.Sent.TheVariants.Whole};

use crate::causes::{note, note_log, note_unsent};
use crate::connected::Connected;
use crate::fault::ConnectFault;
use crate::news::{tell_that_it_stands, wait_for_terminal};
use crate::publishing::Publisher;
use crate::sending::{Delivered, Sender};
use crate::settings::{ClientContext, Connecting, KeySource};
use crate::text_keys::TextKeys;
use crate::waiting::{Brought, LOOK, Patience, Patient};
use std::alloc::{AllocError, Global};
use std::fs::File;
use std::io;
use std::io::{Read, Write};
use std::marker::Brand;
use std::net::TcpStream;
use std::snapshot::Snapshot;
use std::sync::Arc;
use std::sync::atomic::AtomicBool;
use std::time::Duration;
use tn_cores::streams::{Drain, Source};
use tn_net::network::{Network, reach_by};
use tn_net::{
    Connection, Console, Host, Incoming, Keyboard, Keys, LineKeys, LineMode, Link, Logged,
    NewQueue, Outgoing, PiecePass, Queue, ReturnKey, Sent, Sizes, Terminal, Throttle, Trace,
    Typing, WriteLog, new_queue,
};
use tn_session::{ClientPorts, Ended, Report, SessionFault, client_session};

/// After how many milliseconds a write that waits looks whether the user has left.
const WRITE_LOOK: u64 = 100;

// A connection that stands, and what it shares with the rest of the client.
#[derive(Drop)]
struct Opened<H> {
    stream: TcpStream,
    link: Arc<Link, Global>,
    trace: Trace<H>,
    queue: NewQueue,
}

impl<H: Host> Opened<H> {
    // Returns once more the link and the trace, which both directions share.
    fn shared(&self) -> Result<(Arc<Link, Global>, Trace<H>), AllocError> {
        let link = Arc::try_clone(&self.link)?;
        let trace = self.trace.try_clone()?;
        Ok((link, trace))
    }
}

// A connection's two directions, of which the second is sent by a thread of its own.
#[derive(Drop)]
struct Wires<H, Q: Queue> {
    incoming: Incoming<H, Brought<TcpStream>>,
    outgoing: Outgoing<H, Q>,
    sender: Sender<H, Q>,
    flags: Flags,
    // The connection that was split into them, for contracts.
    connection: Snapshot<TcpStream>,
}

// A session that is over, how its sending ended, how many bytes were not sent, the queue of what it
// wrote, the log of what the connection took, and that connection.
#[derive(Drop)]
struct Talked {
    ended: Result<(Report, ClientPorts), SessionFault>,
    sent: io::Result<Sent>,
    unsent: usize,
    queue: PiecePass,
    log: WriteLog,
    connection: Snapshot<TcpStream>,
}

// The flags that the reader of a connection and the reader of keys share.
#[derive(Drop)]
struct Flags {
    // Nothing more comes over the connection.
    is_over: Arc<AtomicBool, Global>,
    // The keys have ended, and the server got the end of the stream.
    has_ended: Arc<AtomicBool, Global>,
}

impl Flags {
    fn new(alloc: Global) -> Result<Flags, AllocError> {
        let is_over = Arc::new(alloc, AtomicBool::new(false))?;
        let has_ended = Arc::new(alloc, AtomicBool::new(false))?;
        Ok(Flags { is_over, has_ended })
    }

    // Returns the same flags once more, for the other reader.
    fn share(&self) -> Result<Flags, AllocError> {
        let is_over = Arc::try_clone(&self.is_over)?;
        let has_ended = Arc::try_clone(&self.has_ended)?;
        Ok(Flags { is_over, has_ended })
    }
}

// Makes the reading side of a connection, which may be silent for at most this number of seconds.
fn brought_by(
    reader: TcpStream,
    flags: Flags,
    link: &Arc<Link, Global>,
    seconds: u32,
) -> Result<Brought<TcpStream>, AllocError> {
    let link = Arc::try_clone(link)?;
    let Flags { is_over, has_ended } = flags;
    Ok(Brought {
        reader,
        is_over,
        link,
        patience: Patience {
            has_ended,
            seconds,
            looks: 0,
        },
    })
}

// Lays out a connection's two directions.
#[tactic(auto, using(crate::proofs::Faults::of_network))]
fn wire<H: Host, Q: Queue>(
    rt: H,
    alloc: Global,
    opened: Opened<H>,
    patience: u32,
) -> Result<Wires<H, Q>, ConnectFault>
    requires new { IsNew opened.queue }
    requires named { IsNamed Q.table Q.key (sends_on opened.queue.to) }
    ensures fault { IfErr result IsOfNetwork }
    ensures nothing_yet { IfOk result (λ wires. view wires.outgoing.pass ≡ putter []) }
    ensures connection { IfOk result (λ wires. wires.connection.value ≡ opened.stream) }
{
    let flags = Flags::new(alloc)?;
    let seen = flags.share()?;
    let (sent, trace) = opened.shared()?;
    let Opened {
        stream,
        link,
        trace: written,
        queue,
    } = opened;
    let connection = Snapshot::of(&stream);
    let (reader, writer) = split(&rt, stream, &link)?;
    let (outgoing, sending) = queue.sides(rt, alloc, Logged::new(writer), sent, written)?;
    wait_for_looks(&reader, patience)?;
    let brought = brought_by(reader, seen, &link, patience)?;
    Ok(Wires {
        incoming: Incoming::new(brought, link, trace),
        outgoing,
        sender: Sender { sending },
        flags,
        connection,
    })
}

// Splits a connection into its two directions, as they are read and written.
#[tactic(auto, using(crate::proofs::Faults::of_network))]
fn split<H: Host>(
    rt: &H,
    stream: TcpStream,
    link: &Link,
) -> Result<(TcpStream, Connection<TcpStream>), ConnectFault>
    ensures fault { IfErr result IsOfNetwork }
{
    let (reader, writer) = Connection::split(stream)?;
    reader.set_write_timeout(Some(Duration::from_millis(WRITE_LOOK)))?;
    link.attach(rt, reader.try_clone()?);
    Ok((reader, writer))
}

// Makes each read return after a look, if it matters how long the server is silent.
fn wait_for_looks(reader: &TcpStream, patience: u32) -> Result<(), ConnectFault>
    ensures fault { IfErr result IsOfNetwork }
{
    if patience > 0 {
        reader.set_read_timeout(Some(Duration::from_millis(u64::from(LOOK))))?;
    }
    Ok(())
}

// Runs a session over a connection's two directions, with these keys and this screen.
fn talk_by<H: Host, T: Source + Drop + Send + 'static, S: Write, Q: Queue>(
    rt: H,
    alloc: Global,
    incoming: Incoming<H, Brought<TcpStream>>,
    outgoing: &mut Outgoing<H, Q>,
    keys: T,
    screen: &mut S,
    connecting: &Connecting,
) -> Result<(Report, ClientPorts), SessionFault>
    requires nothing_yet { view outgoing.old.pass ≡ putter [] }
    ensures ran { IfOk result (λ r. RunsWriting (window_of connecting.now)
        (known_typing T.remaining T.foretold T.sizes T.words T.controls keys)
        (S.contents screen.old) (S.contents screen.new) (put_bytes (view outgoing.new.pass)) r.0 r.1) }
{
    let Ok(gate) = Publisher::new(alloc, incoming.link()) else {
        return Err(SessionFault::Memory);
    };
    let (width, height) = (connecting.width, connecting.height);
    let limit = connecting.line_limit;
    client_session(
        rt, alloc, incoming, keys, outgoing, screen, width, height, limit, gate,
    )
}

// Runs a session over a connection's two directions, with the keys of a reader and this screen.
fn talk_from<H: Host, K: Read + Drop + Send + 'static, S: Write, Q: Queue>(
    rt: H,
    alloc: Global,
    incoming: Incoming<H, Brought<TcpStream>>,
    outgoing: &mut Outgoing<H, Q>,
    typing: Typing<H, K>,
    flags: Flags,
    screen: &mut S,
    connecting: Connecting,
) -> Result<(Report, ClientPorts), SessionFault>
    requires nothing_yet { view outgoing.old.pass ≡ putter [] }
    ensures ran { IfOk result (λ r.
        RunsWriting (window_of connecting) (foreseen connecting.origin connecting.text (K.remaining typing.keys))
        (S.contents screen.old) (S.contents screen.new) (put_bytes (view outgoing.new.pass)) r.0 r.1) }
{
    let typing = as_text(typing, is_text(&connecting));
    match connecting.origin {
        KeySource::Reader => {
            let keys = Keys::new(typing);
            talk_by(rt, alloc, incoming, outgoing, keys, screen, &connecting)
        },
        KeySource::Input => {
            let Ok(link) = Arc::try_clone(&typing.link) else {
                return Err(SessionFault::Memory);
            };
            let keys = Patient {
                rt,
                keys: console_of(rt, alloc, typing, &connecting),
                seconds: connecting.wait,
                link,
                is_over: flags.is_over,
                has_ended: flags.has_ended,
            };
            talk_by(rt, alloc, incoming, outgoing, keys, screen, &connecting)
        },
        KeySource::Terminal(_) => {
            let Ok(keys) = line_keys_of(rt, alloc, typing, &connecting) else {
                return Err(SessionFault::Memory);
            };
            talk_by(rt, alloc, incoming, outgoing, keys, screen, &connecting)
        },
    }
}

// Makes keys of standard input.
fn console_of<H: Host, K: Read + Drop>(
    rt: H,
    alloc: Global,
    typing: Typing<H, K>,
    connecting: &Connecting,
) -> Console<H, K>
    ensures keyboard { result.escaping.keyboard ≡ keyboard_of connecting.now }
    ensures keys { result.typing.keys ≡ typing.keys }
{
    Console::new(rt, alloc, typing, keyboard_of(connecting))
}

// Makes the keys of a terminal, which are edited as lines while the client holds lines until they
// end.
fn line_keys_of<H: Host, K: Read + Drop>(
    rt: H,
    alloc: Global,
    typing: Typing<H, K>,
    connecting: &Connecting,
) -> Result<LineKeys<H, K>, AllocError> {
    let mode = LineMode {
        limit: connecting.line_mode,
        session_limit: connecting.line_limit,
        editing: connecting.editing,
        returns: connecting.returns,
        screen: screen_of(&typing),
        width: typing.width,
    };
    let link = Arc::try_clone(&typing.link)?;
    let console = console_of(rt, alloc, typing, connecting);
    LineKeys::new(rt, alloc, console, link, mode)
}

// Returns the screen of a terminal once more, for another part that shows something there.
fn screen_of<H, K>(typing: &Typing<H, K>) -> Option<File> {
    let terminal = typing.terminal.as_ref()?;
    let screen = terminal.screen.as_ref()?;
    screen.try_clone().ok()
}

// Returns the meaning of the bytes that are typed: only at a terminal a byte stands for anything
// but itself.
fn keyboard_of(connecting: &Connecting) -> Keyboard
    ensures { result ≡ keyboard_of connecting.now }
{
    match connecting.origin {
        KeySource::Terminal(own) => Keyboard {
            escape: connecting.escape,
            own,
            editing: own,
            returns: connecting.returns.unwrap_or(ReturnKey::CrNul),
            may_change: true,
        },
        KeySource::Reader | KeySource::Input => Keyboard::of_bytes(),
    }
}

// Makes keys from this input, which may be the bytes of a text.
fn as_text<H, K>(typing: Typing<H, K>, is_text: bool) -> Typing<H, TextKeys<K>>
    ensures { result.keys ≡ record { keys = typing.keys; is_text = is_text; after_return = false } }
{
    let Typing {
        keys,
        throttle,
        link,
        host,
        port,
        width,
        height,
        sizes,
        terminal,
    } = typing;
    Typing {
        keys: TextKeys::new(keys, is_text),
        throttle,
        link,
        host,
        port,
        width,
        height,
        sizes,
        terminal,
    }
}

// Returns whether the keys are the bytes of a text. A terminal's are not.
fn is_text(connecting: &Connecting) -> bool
    ensures { result ≡ text_by connecting.now.origin connecting.now.text }
{
    match connecting.origin {
        KeySource::Terminal(_) => false,
        KeySource::Reader | KeySource::Input => connecting.text,
    }
}

// Runs a session over a connection that stands, of which a thread of its own sends what the session writes.
fn talk_and_send<H: Host, K: Read + Drop + Send + 'static, S: Write, Q: Queue + Send + 'static>(
    rt: H,
    alloc: Global,
    opened: Opened<H>,
    typing: Typing<H, K>,
    screen: &mut S,
    connecting: Connecting,
) -> Result<Talked, ConnectFault>
    requires new { IsNew opened.queue }
    requires named { IsNamed Q.table Q.key (sends_on opened.queue.to) }
    ensures ran { IfOk result (λ talked. IfOk talked.ended (λ r.
        RunsWriting (window_of connecting) (foreseen connecting.origin connecting.text (K.remaining typing.keys))
        (S.contents screen.old) (S.contents screen.new) (put_bytes (view talked.queue)) r.0 r.1)) }
    ensures sent { IfOk result (λ talked.
        IsSent (put_bytes (view talked.queue)) (talked.sent ≡ Ok Whole) (logged talked.log)) }
    ensures unshown { OnErr result (S.contents screen.new ≡ S.contents screen.old) }
    ensures fault { IfErr result IsOfNetwork }
    ensures connection { IfOk result (λ talked. talked.connection.value ≡ opened.stream) }
{
    let Wires {
        incoming,
        mut outgoing,
        sender,
        flags,
        connection,
    } = wire::<H, Q>(rt, alloc, opened, connecting.patience)?;
    let Some(sending) = sender.start(rt) else {
        return Err(ConnectFault::Memory);
    };
    let ended = talk_from(
        rt,
        alloc,
        incoming,
        &mut outgoing,
        typing,
        flags,
        screen,
        connecting,
    );
    outgoing.end();
    let Delivered { sent, log, taker } = sending.join(&rt);
    let unsent = outgoing.waiting();
    let queue = outgoing.settle(taker);
    Ok(Talked {
        ended,
        sent,
        unsent,
        queue,
        log,
        connection,
    })
}

// The files of a client, as `ClientContext` describes them.
#[derive(Drop)]
struct Files {
    trace: Option<File>,
    sizes: Option<File>,
    stands: Option<File>,
    terminal: Option<File>,
}

// The parts of a session over a connection.
struct Laid<H, K> {
    opened: Opened<H>,
    typing: Typing<H, K>,
    trace: Trace<H>,
}

// Makes a trace to this file, for the connection and for the part that asks at its end whether it
// is whole.
fn traces<H: Host>(
    rt: H,
    alloc: Global,
    file: Option<File>,
) -> Result<(Trace<H>, Trace<H>), AllocError> {
    let trace = Trace::new(rt, alloc, file)?;
    let written = trace.try_clone()?;
    Ok((trace, written))
}

// Returns the link twice, for the connection and for the keys.
fn links(link: &Arc<Link, Global>) -> Result<(Arc<Link, Global>, Arc<Link, Global>), AllocError> {
    let wired = Arc::try_clone(link)?;
    let asked = Arc::try_clone(link)?;
    Ok((wired, asked))
}

// The connection with a queue of its own, the user's keys, held back while much waits there, and the trace.
// It takes eight, as they go together nowhere else.
fn lay_out<H: Host, K: Drop>(
    rt: H,
    alloc: Global,
    stream: TcpStream,
    host: &str,
    connecting: &Connecting,
    keys: K,
    link: &Arc<Link, Global>,
    files: Files,
) -> Result<Laid<H, K>, AllocError>
    ensures queue { IfOk result (λ laid. IsNew laid.opened.queue) }
    ensures keys { IfOk result (λ laid. laid.typing.keys ≡ keys) }
    ensures stream { IfOk result (λ laid. laid.opened.stream ≡ stream) }
{
    let Files {
        trace,
        sizes,
        stands,
        terminal,
    } = files;
    let (trace, written) = traces(rt, alloc, trace)?;
    let (wired, asked) = links(link)?;
    let host = String::from_str(alloc, host)?;
    let (queue, throttle) = new_queue(rt, alloc)?;
    let typing = Typing {
        keys,
        throttle,
        link: asked,
        host,
        port: connecting.port,
        width: connecting.width,
        height: connecting.height,
        sizes: Sizes::new(sizes),
        terminal: Some(Terminal::new(terminal, stands)),
    };
    Ok(Laid {
        opened: Opened {
            stream,
            link: wired,
            trace: written,
            queue,
        },
        typing,
        trace,
    })
}

/// Connects to a host, an address or a name, and runs a client's session over the connection, with
/// these keys and this screen, until the server has closed or the user leaves. The result of a
/// session without a fault shows contracts all that was read from the connection, all that the
/// session wrote, and the part of it that the connection took. The causes of a fault are noted in
/// `notes.causes`, a line each.
///
/// # Errors
///
/// - `Network`: no connection was made, or it could not be set up.
/// - `Session`: the session ended in a fault, which the noted line names.
/// - `Memory`: there is no memory.
pub fn connect<H: Host + Network, K: Read + Drop + Send + 'static, S: Write, E: Drain>(
    rt: H,
    alloc: Global,
    host: &str,
    connecting: Connecting,
    keys: K,
    screen: &mut S,
    notes: ClientContext<'_, E>,
) -> Result<Connected, ConnectFault>
    ensures ran { IfOk result (RunsClient (window_of connecting)
        (foreseen connecting.origin connecting.text (K.remaining keys))
        (S.contents screen.old) (S.contents screen.new)) }
    ensures sent { IfOk result TookWhatWasWritten }
    ensures whole { IfOk result (λ connected. EndsWhole connected.report.ended) }
    ensures unshown { OnErr result (result ≢ Err ConnectFault.Session →
        S.contents screen.new ≡ S.contents screen.old) }
    ensures reached { ConnectsBy connection_of
        (ReachesBy (suits connecting.dialing) (H.finds rt host.now connecting.port) (H.dials rt)) result }
{
    let ClientContext {
        trace,
        sizes,
        mut stands,
        terminal,
        mut news,
        causes,
        link,
    } = notes;
    if trace.is_some() {
        news.trace();
    }
    let stream = reach_by(
        &rt,
        host,
        connecting.port,
        connecting.dialing,
        &mut news,
        causes,
    )?;
    tell_that_it_stands(&mut stands);
    news.connect(host, connecting.escape);
    wait_for_terminal(&mut stands, &sizes);
    let files = Files {
        trace,
        sizes,
        stands,
        terminal,
    };
    let Laid {
        opened,
        typing,
        trace,
    } = lay_out(rt, alloc, stream, host, &connecting, keys, &link, files)?;
    let talked = talk_and_send::<H, K, S, Brand>(rt, alloc, opened, typing, screen, connecting)?;
    note_talked(causes, &talked, &link);
    if !trace.is_whole() {
        note(causes, b"tn: the trace is not whole\n");
    }
    note_log(causes, &link);
    let is_left = link.is_left();
    // A screen that takes no more has ended the connection, and sending fails then.
    let ended = result_of(talked, is_left || link.is_dark(), link.misses_text());
    news.close(host, is_left, ended.is_ok());
    ended
}

// Notes why a session ended in a fault, if it did, and what was not sent.
fn note_talked(causes: &mut Vec<u8>, talked: &Talked, link: &Link) {
    let kept = link.dropped().saturating_add(link.held());
    let unsent = talked.unsent.saturating_add(kept);
    let fault = fault_of(&talked.ended);
    if link.is_broken() && matches!(fault, Some(SessionFault::Read)) {
        note_break(causes, unsent);
        return;
    }
    if let Some(fault) = fault {
        note_fault(causes, fault, link);
    } else if link.misses_text() {
        note_fault(causes, SessionFault::Write, link);
    }
    if let Err(error) = &talked.sent {
        let _ = writeln!(causes, "tn: sending failed: {}", error);
    }
    note_rest(causes, unsent, link);
}

// Notes that the connection broke, and what was not sent, in one line.
fn note_break(causes: &mut Vec<u8>, unsent: usize) {
    if unsent == 0 {
        note(causes, b"tn: the connection broke\n");
    } else {
        note_unsent(causes, "the connection broke; ", unsent);
    }
}

// Returns the result of a session that is over. If its sending failed, that is a fault, unless its
// user has left; and if text of it could not be shown.
fn result_of(talked: Talked, is_left: bool, misses_text: bool) -> Result<Connected, ConnectFault>
    ensures ran { IfOk result (λ r. (talked.ended ≡ Ok (r.report, r.ports)) × (r.queue ≡ talked.queue)) }
    ensures log { IfOk result (λ r. (r.log ≡ talked.log) × (IsTrue r.all_sent → talked.sent ≡ Ok Whole)) }
    ensures whole { IfOk result (λ r. EndsWhole r.report.ended) }
    ensures connection { IfOk result (λ r. r.connection ≡ talked.connection) }
    ensures sent { IfOk result (λ _. IsFalse is_left → IsOk talked.sent) }
    ensures fault { IfErr result (λ fault. fault ≡ ConnectFault.Session) }
{
    let Talked {
        ended,
        sent,
        queue,
        log,
        connection,
        ..
    } = talked;
    let (report, ports) = if_whole(ended)?;
    if misses_text {
        return Err(ConnectFault::Session);
    }
    if sent.is_err() && !is_left {
        return Err(ConnectFault::Session);
    }
    let all_sent = is_whole(&sent);
    Ok(Connected {
        report,
        ports,
        queue,
        log,
        all_sent,
        connection,
    })
}

// Returns whether all was sent.
fn is_whole(sent: &io::Result<Sent>) -> bool
    ensures { IsTrue result → sent.now ≡ Ok Whole }
{
    matches!(sent, Ok(Sent::Whole))
}

// Returns the fault in which a session ended, if it did.
fn fault_of<P: Drop>(ended: &Result<(Report, P), SessionFault>) -> Option<SessionFault> {
    match ended {
        Ok((report, _)) => match report.ended {
            Ended::Fault(fault) => Some(fault),
            Ended::HangUp | Ended::Done => None,
        },
        Err(fault) => Some(*fault),
    }
}

fn note_fault(causes: &mut Vec<u8>, fault: SessionFault, link: &Link) {
    match fault {
        SessionFault::Read => note(causes, b"tn: the keys could not be read\n"),
        SessionFault::Write if link.is_dark() => note(causes, b"tn: the screen takes no more\n"),
        SessionFault::Write => note(causes, b"tn: the connection takes no more\n"),
        fault => {
            let _ = writeln!(causes, "tn: {}", fault);
        },
    }
}

// Notes how much was not sent, and why, unless a reader of the screen has left, who wants no more.
fn note_rest(causes: &mut Vec<u8>, unsent: usize, link: &Link) {
    if unsent == 0 || link.is_dark() {
        return;
    }
    let why = if link.is_left() {
        ""
    } else {
        "closed by the other end; "
    };
    note_unsent(causes, why, unsent);
}

// Returns the result of a session that ended without a fault.
fn if_whole<P: Drop>(ended: Result<(Report, P), SessionFault>) -> Result<(Report, P), ConnectFault>
    ensures ran { IfOk result (λ r. ended ≡ Ok r) }
    ensures whole { IfOk result (λ r. EndsWhole r.0.ended) }
    ensures faulted { OnErr result (IfOk ended (λ r. ¬ EndsWhole r.0.ended)) }
    ensures fault { IfErr result (λ fault. fault ≡ ConnectFault.Session) }
{
    let Ok((report, ports)) = ended else {
        return Err(ConnectFault::Session);
    };
    if report.ended.is_whole() {
        return Ok((report, ports));
    }
    Err(ConnectFault::Session)
}
