//! `tn connect --plain`: a talk with a service that takes lines and negotiates nothing.

ghost use Rattle.std.specs.Prelude.{◌≡◌, ◌≢◌, IfOk, Ok};
ghost use Rattle.tn_connect.specs.{Clients.ConnectsBy, Talks.{RunsTalk, is_terminal}, Warnings.count_in};
ghost use Rattle.tn_connect.specs.Talks.{plain_keyboard, talked_over, HeardToTheEnd, HoldsTalk, HoldsTyped};
ghost use Rattle.tn_net.specs.network.{Asked.ReachesBy, Dialing.suits};

use crate::causes::{note, note_log, note_unsent};
use crate::fault::ConnectFault;
use crate::news::{tell_that_it_stands, wait_for_terminal};
use crate::polls::Polling;
use crate::settings::{ClientContext, KeySource, Plain};
use crate::warnings::Warnings;
use std::alloc::Global;
use std::fs::File;
use std::io::{Read, Write};
use std::net::TcpStream;
use std::os::fd::AsRawFd;
use std::snapshot::Snapshot;
use std::sync::Wait;
use std::time::Clock;
use tn_cores::streams::{Drain, Finish, Source};
use tn_lines::{Over, ReadLog, Talk, TalkFault};
use tn_net::network::{Network, reach_by};
use tn_net::{
    About, Connection, Host, Keyboard, LineSettings, Link, Logged, Noted, NotedWriter, PlainKeys,
    PlainLines, ReturnKey, Sizes, Terminal, Trace, WriteLog,
};

/// The result of a talk that is over. Its logs show contracts all that was typed and all that
/// passed in both directions, and each warning.
#[derive(Drop)]
pub struct TalkReport {
    pub over: Over,
    /// The lines that were read.
    pub typed: ReadLog,
    /// The bytes that the service sent.
    pub heard: ReadLog,
    /// The bytes that were sent to the service.
    pub told: WriteLog,
    /// The number of bytes that were still to be sent.
    pub unsent: usize,
    /// The number of warnings to the user that the service speaks Telnet.
    pub warned: Warnings,
    /// The connection that it was held over, for contracts.
    pub connection: Snapshot<TcpStream>,
}

/// Talks by these streams, until the service has closed, the connection is broken, or the user has left.
fn talk<
    H: Clock + Copy + Wait,
    E: Drain,
    K: Source + Drop,
    N: Source + Drop,
    W: Finish + Drop,
    S: Drain,
>(
    rt: &H,
    alloc: Global,
    plain: Plain,
    connection: Snapshot<TcpStream>,
    mut ready: Polling<'_, H, E>,
    mut keys: K,
    mut service: N,
    writer: W,
    screen: &mut S,
) -> Result<TalkReport, TalkFault>
    requires unwarned { count_in ready.warned ≡ 0 }
    ensures talked { IfOk result (HoldsTalk plain.line_end plain.origin (K.remaining keys) (S.contents screen.old)
        (S.contents screen.new)) }
    ensures connection { IfOk result (λ report. report.connection ≡ connection) }
    ensures closed { IfOk result (HeardToTheEnd (N.remaining service)) }
{
    let mut talk = Talk::new(alloc, plain.line_end, is_terminal(plain.origin));
    let mut writer = Logged::new(writer);
    let over = talk.run(rt, &mut ready, &mut keys, &mut service, &mut writer, screen)?;
    let (_, told) = writer.into_parts();
    let unsent = talk.unsent();
    let (typed, heard) = talk.into_logs();
    Ok(TalkReport {
        over,
        typed,
        heard,
        told,
        unsent,
        warned: ready.take_warned(),
        connection,
    })
}

// Returns the meaning of the bytes that are typed: only at a terminal a byte stands for anything
// but itself.
fn keyboard_of(origin: KeySource, escape: Option<u8>) -> Keyboard
    ensures { result ≡ plain_keyboard origin escape }
{
    match origin {
        KeySource::Terminal(own) => Keyboard {
            escape,
            own,
            editing: own,
            returns: ReturnKey::CrNul,
            may_change: false,
        },
        KeySource::Reader | KeySource::Input => Keyboard::of_bytes(),
    }
}

fn is_terminal(origin: KeySource) -> bool
    ensures { result ≡ is_terminal origin }
{
    matches!(origin, KeySource::Terminal(_))
}

/// Connects to a host, an address or a name, and talks to the service there by lines, with these
/// keys and this screen, until the service has closed or the user has left. At a terminal lines are
/// edited as at one of its own, and the user speaks to the client itself after the escape
/// character; the lines of any other input go as they are. That the service speaks Telnet is
/// reported as soon as it shows. The causes of a fault are noted in `notes.causes`, a line each.
///
/// # Errors
///
/// - `Network`: no connection was made, or it could not be set up.
/// - `Session`: the talk ended in a fault, which the noted line names.
/// - `Memory`: there is no memory.
pub fn connect_plain<H: Host + Network, K: Read + Drop, S: Write, E: Drain>(
    rt: H,
    alloc: Global,
    host: &str,
    plain: Plain,
    keys: K,
    screen: &mut S,
    notes: ClientContext<'_, E>,
) -> Result<TalkReport, ConnectFault>
    ensures talked { IfOk result (RunsTalk plain.line_end plain.origin (K.remaining keys) (S.contents screen.old)
        (S.contents screen.new)) }
    ensures reached { ConnectsBy talked_over
        (ReachesBy (suits plain.dialing) (H.finds rt host.now plain.port) (H.dials rt)) result }
{
    let ClientContext {
        trace,
        sizes,
        mut stands,
        terminal,
        mut news,
        causes,
        link,
    } = notes;
    if trace.is_some() {
        news.trace();
    }
    let stream = reach_by(&rt, host, plain.port, plain.dialing, &mut news, causes)?;
    tell_that_it_stands(&mut stands);
    news.connect(host, plain.escape);
    wait_for_terminal(&mut stands, &sizes);
    link.attach(&rt, stream.try_clone()?);
    let Ok(trace) = Trace::without_telnet(rt, alloc, trace) else {
        return Err(ConnectFault::Memory);
    };
    link.note_editing(false, true);
    let about = About {
        link: &link,
        host,
        port: plain.port,
        window: None,
    };
    let around = Around {
        about,
        lines: LineSettings {
            limit: plain.line_limit,
            editing: plain.editing,
            screen: copy_of(&terminal),
            sizes: Sizes::new(sizes),
        },
        terminal: Terminal::new(terminal, stands),
        trace: &trace,
    };
    let talked = talk_over(rt, alloc, stream, plain, keys, screen, news.writer, around)?;
    note_files(causes, &link, &trace);
    let ended = ended_of(talked, causes);
    news.close(host, has_left(&ended), ended.is_ok());
    ended
}

/// The parts of the client that a talk uses besides its streams.
#[derive(Drop)]
struct Around<'a, H> {
    about: About<'a>,
    lines: LineSettings,
    terminal: Terminal,
    trace: &'a Trace<H>,
}

// Returns a terminal's file once more.
fn copy_of(terminal: &Option<File>) -> Option<File> {
    terminal.as_ref()?.try_clone().ok()
}

// Talks over a connection that stands. It takes eight, as they go together nowhere else.
fn talk_over<H: Host, K: Read + Drop, S: Write, E: Drain>(
    rt: H,
    alloc: Global,
    stream: TcpStream,
    plain: Plain,
    keys: K,
    screen: &mut S,
    errors: &mut E,
    around: Around<'_, H>,
) -> Result<Result<TalkReport, TalkFault>, ConnectFault>
    ensures talked { IfOk result (λ talked. IfOk talked
        (HoldsTyped plain.line_end plain.origin (K.remaining keys) (S.contents screen.old) (S.contents screen.new))) }
    ensures connection { IfOk result (λ talked. IfOk talked (λ report. talked_over report ≡ stream)) }
{
    let over = Snapshot::of(&stream);
    let (service, connection) = Connection::split(stream)?;
    service.set_nonblocking(true)?;
    let Around {
        about,
        lines,
        terminal,
        trace,
    } = around;
    let link = about.link;
    let keyboard = keyboard_of(plain.origin, plain.escape);
    let keys = PlainKeys::new(rt, alloc, keys, keyboard, terminal, about);
    let ready = Polling::new(rt, &plain, service.as_raw_fd(), errors, link);
    let service = Noted::new(service, link, trace);
    let connection = NotedWriter::new(connection, link, trace);
    if is_terminal(plain.origin) {
        let keys = PlainLines::new(rt, alloc, keys, link, lines)?;
        let edited = talk(
            &rt, alloc, plain, over, ready, keys, service, connection, screen,
        );
        return Ok(edited);
    }
    let talked = talk(
        &rt, alloc, plain, over, ready, keys, service, connection, screen,
    );
    Ok(talked)
}

// Notes whether a file of the client lacks something.
fn note_files<H: Host>(causes: &mut Vec<u8>, link: &Link, trace: &Trace<H>) {
    if !trace.is_whole() {
        note(causes, b"tn: the trace is not whole\n");
    }
    note_log(causes, link);
}

fn has_left(ended: &Result<TalkReport, ConnectFault>) -> bool {
    match ended {
        Ok(report) => matches!(report.over, Over::Left | Over::Asked),
        Err(_) => false,
    }
}

// Returns a talk that is over, unless it ended in a fault or its connection broke. The causes for
// the user are noted.
fn ended_of(
    talked: Result<TalkReport, TalkFault>,
    causes: &mut Vec<u8>,
) -> Result<TalkReport, ConnectFault>
    ensures same { IfOk result (λ whole. talked ≡ Ok whole) }
    ensures whole { IfOk result (λ whole. whole.over ≢ Over.Broken) }
{
    match talked {
        Ok(report) => if_whole(report, causes),
        Err(fault) => Err(noted(fault, causes)),
    }
}

fn if_whole(report: TalkReport, causes: &mut Vec<u8>) -> Result<TalkReport, ConnectFault>
    ensures same { IfOk result (λ whole. whole ≡ report) }
    ensures whole { IfOk result (λ whole. whole.over ≢ Over.Broken) }
{
    if report.unsent > 0 {
        note_unsent(causes, "", report.unsent);
    }
    if report.over == Over::Broken {
        note(causes, b"tn: the connection broke\n");
        return Err(ConnectFault::Session);
    }
    Ok(report)
}

fn noted(fault: TalkFault, causes: &mut Vec<u8>) -> ConnectFault {
    let _ = writeln!(causes, "tn: {}", fault);
    match fault {
        TalkFault::Memory => ConnectFault::Memory,
        TalkFault::Keys | TalkFault::Screen => ConnectFault::Session,
    }
}
