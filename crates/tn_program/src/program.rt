//! The program: arguments and streams in, a status out.

ghost use Rattle.std.specs.Prelude.{◌≡◌, ◌≢◌, ℕ, List, None, Option, Some, IfErr, IfOk, IsOk, OnErr};
ghost use Rattle.std.specs.IoError.{error_kind};
ghost use Rattle.tn_program.specs.{Machine.machine_of, Outcomes.{ComesOf, ComesOfNoRun, ComesOfRun, EndsVersion, EndsWith}};
ghost use Rattle.tn_cli.specs.arguments.Ranges.{IsWithinRanges};

use crate::banner::read_banner;
use crate::counting::Serves;
use crate::files::{open_log, open_trace};
use crate::metrics::Replacing;
use crate::outcome::Outcome;
use crate::ports::port_of;
use crate::serving::serve_asked;
use crate::settings::{connecting_of, plain_of};
use crate::streams::Streams;
use crate::watching::Lookout;
use std::alloc::{AllocError, Global};
use std::fs::{File, Files};
use std::io;
use std::io::{ErrorKind, Read, Write};
use tn_cli::arguments::{
    Asked, ConnectWords, LineEnd, ServeWords, VERSION_LINE, WordsFault, read_words,
};
use tn_cli::{CliFault, run_decode, run_local, run_replay, run_world};
use tn_connect::{ClientContext, ConnectFault, Host, KeySource, News, connect, connect_plain};
use tn_cores::streams::Drain;
use tn_net::network::Network;

/// Does the run for which the arguments of the command line ask, if they could be read. The
/// program's name is the first of them; a host of the user's own file is no longer among them, but
/// the arguments that it stands for (`tn_cli::hosts`). It returns the status to end with: 0 if that was
/// done, and else the status of its fault (`EndsWith`). A fault is one line on `errors`, followed
/// by what is wrong with the arguments, or why; text that cannot be written is dropped. Of streams
/// at standard input nothing is known beforehand.
pub fn run_words<
    H: Network + Host + Lookout + Replacing + Eprint + Files<File = File>,
    R: Read + Drop + Send + 'static,
    W: Write,
    E: Drain,
>(
    rt: H,
    alloc: Global,
    words: io::Result<Vec<String>>,
    streams: Streams<R>,
    writer: &mut W,
    errors: &mut E,
) -> u8
    ensures had { result ≡ 0 → IsOk words }
    ensures memory { IfErr words (λ error. error_kind error ≡ ErrorKind.OutOfMemory → result ≡ 1) }
    ensures usage { IfErr words (λ error. error_kind error ≢ ErrorKind.OutOfMemory → result ≡ 2) }
    ensures unwritten { OnErr words (W.contents writer.new ≡ W.contents writer.old) }
    ensures ended { IfOk words (λ words. EndsWith
        (machine_of (H.listens rt) (H.shares rt) (H.accepts rt) (H.finds rt) (H.dials rt)
        (H.sees rt) (⟦<H as Serves>⟧.serves rt))
        streams.origin (R.remaining streams.reader)
        (W.contents writer.old) (W.contents writer.new) result) }
{
    let mut causes = Vec::new(alloc);
    let outcome = outcome_of_words(rt, alloc, words, streams, writer, errors, &mut causes);
    outcome.tell(alloc, &causes, errors);
    let status = outcome.status();
    // Dropped by a call: field by field takes the prover long.
    drop(outcome);
    status
}

/// Does the run for which the arguments ask, and returns its outcome, without the status and the
/// lines. It appends the causes of a fault, a line each.
pub fn outcome_of_words<
    H: Network + Host + Lookout + Replacing + Eprint + Files<File = File>,
    R: Read + Drop + Send + 'static,
    W: Write,
    E: Drain,
>(
    rt: H,
    alloc: Global,
    words: io::Result<Vec<String>>,
    streams: Streams<R>,
    writer: &mut W,
    errors: &mut E,
    causes: &mut Vec<u8>,
) -> Outcome
    ensures memory { IfErr words (λ error. error_kind error ≡ ErrorKind.OutOfMemory →
        result ≡ Outcome.Memory) }
    ensures usage { IfErr words (λ error. error_kind error ≢ ErrorKind.OutOfMemory →
        result ≡ Outcome.Usage None) }
    ensures unwritten { OnErr words (W.contents writer.new ≡ W.contents writer.old) }
    ensures comes { IfOk words (λ words. ComesOf
        (machine_of (H.listens rt) (H.shares rt) (H.accepts rt) (H.finds rt) (H.dials rt)
        (H.sees rt) (⟦<H as Serves>⟧.serves rt))
        streams.origin (R.remaining streams.reader)
        (W.contents writer.old) (W.contents writer.new) result) }
{
    let words = match words {
        Ok(words) => words,
        Err(error) => return refusal(error.kind()),
    };
    match asked_of(alloc, &words) {
        Ok(asked) => run_asked(rt, alloc, asked, streams, writer, errors, causes),
        Err(fault) => outcome_of_fault(fault, writer),
    }
}

// Returns the outcome of arguments that ask for no run: help and the version are written.
fn outcome_of_fault<W: Write>(fault: WordsFault, writer: &mut W) -> Outcome
    ensures { ComesOfNoRun (W.contents writer.old) (W.contents writer.new) result }
{
    match fault {
        WordsFault::Help(text) => {
            let written = writer.write_all(text.as_bytes());
            Outcome::Help(written.map_err(|_| CliFault::Write))
        },
        WordsFault::Version => Outcome::Version(write_version(writer)),
        WordsFault::Memory => Outcome::Memory,
        WordsFault::Usage(detail) => Outcome::Usage(Some(detail)),
    }
}

// Returns the outcome of arguments that could not be read: out of memory, or arguments that are not
// text, which are not accepted.
fn refusal(kind: ErrorKind) -> Outcome
    ensures memory { kind ≡ ErrorKind.OutOfMemory → result ≡ Outcome.Memory }
    ensures usage { kind ≢ ErrorKind.OutOfMemory → result ≡ Outcome.Usage None }
{
    if kind == ErrorKind::OutOfMemory {
        return Outcome::Memory;
    }
    Outcome::Usage(None)
}

fn texts_of<'a>(alloc: Global, words: &'a [String]) -> Result<Vec<&'a str>, AllocError> {
    let mut texts = Vec::new(alloc);
    for word in words {
        texts.push(word.as_str())?;
    }
    Ok(texts)
}

// Returns the run for which the arguments ask.
fn asked_of(alloc: Global, words: &[String]) -> Result<Asked, WordsFault>
    ensures { IfOk result IsWithinRanges }
{
    match texts_of(alloc, words) {
        Ok(texts) => read_words(alloc, &texts),
        Err(_) => Err(WordsFault::Memory),
    }
}

fn write_version<W: Write>(writer: &mut W) -> Result<(), CliFault>
    ensures { EndsVersion result (W.contents writer.old) (W.contents writer.new) }
{
    match writer.write_all(VERSION_LINE.as_bytes()) {
        Ok(()) => Ok(()),
        Err(_) => Err(CliFault::Write),
    }
}

fn run_asked<
    H: Network + Host + Lookout + Replacing + Eprint + Files<File = File>,
    R: Read + Drop + Send + 'static,
    W: Write,
    E: Drain,
>(
    rt: H,
    alloc: Global,
    asked: Asked,
    mut streams: Streams<R>,
    writer: &mut W,
    errors: &mut E,
    causes: &mut Vec<u8>,
) -> Outcome
    ensures { ComesOfRun
        (machine_of (H.listens rt) (H.shares rt) (H.accepts rt) (H.finds rt) (H.dials rt)
        (H.sees rt) (⟦<H as Serves>⟧.serves rt))
        asked streams.origin (R.remaining streams.reader)
        (W.contents writer.old) (W.contents writer.new) result }
{
    match asked {
        Asked::Local => Outcome::Local(run_local(alloc, &mut streams, writer)),
        Asked::Replay => Outcome::Replay(run_replay(alloc, &mut streams, writer)),
        Asked::Decode => Outcome::Decode(run_decode(alloc, &mut streams, writer)),
        Asked::World => Outcome::World(run_world(alloc, &mut streams, writer)),
        Asked::Serve(asked) => run_serve(rt, alloc, &asked, streams.is_journal, causes),
        Asked::Connect(asked) => match asked.plain {
            Some(line_end) => run_plain(
                rt, alloc, &asked, line_end, streams, writer, errors, causes,
            ),
            None => run_connect(rt, alloc, asked, streams, writer, errors, causes),
        },
    }
}

// A server's sessions.
fn run_serve<H: Network + Host + Lookout + Replacing + Eprint + Files<File = File>>(
    rt: H,
    alloc: Global,
    asked: &ServeWords,
    is_journal: bool,
    causes: &mut Vec<u8>,
) -> Outcome
    ensures { (origin : KeySource) (bytes old : Option (List ℕ)) → ComesOfRun
        (machine_of (H.listens rt) (H.shares rt) (H.accepts rt) (H.finds rt) (H.dials rt)
        (H.sees rt) (⟦<H as Serves>⟧.serves rt))
        (Asked.Serve asked.now) origin bytes old old result }
{
    let Ok(banner) = read_banner(&rt, alloc, asked, causes) else {
        return Outcome::Unread;
    };
    let served = serve_asked(rt, alloc, asked, banner, is_journal, causes);
    Outcome::Served(served)
}

// A talk with a service that takes lines.
fn run_plain<
    H: Network + Host + Lookout + Files<File = File>,
    R: Read + Drop + Send + 'static,
    W: Write,
    E: Drain,
>(
    rt: H,
    alloc: Global,
    asked: &ConnectWords,
    line_end: LineEnd,
    streams: Streams<R>,
    writer: &mut W,
    errors: &mut E,
    causes: &mut Vec<u8>,
) -> Outcome
    requires { asked.now.plain ≡ Some line_end }
    ensures { ComesOfRun
        (machine_of (H.listens rt) (H.shares rt) (H.accepts rt) (H.finds rt) (H.dials rt)
        (H.sees rt) (⟦<H as Serves>⟧.serves rt))
        (Asked.Connect asked.now) streams.origin (R.remaining streams.reader)
        (W.contents writer.old) (W.contents writer.new) result }
{
    let Some(port) = port_of(&rt, alloc, &asked.port, causes) else {
        return Outcome::Talked(Err(ConnectFault::Network));
    };
    let Ok(trace) = open_trace(&rt, alloc, asked, causes) else {
        return Outcome::Untraced;
    };
    let Ok(()) = open_log(&rt, asked, &streams.link, causes) else {
        return Outcome::Untraced;
    };
    let Streams {
        origin,
        reader,
        sizes,
        stands,
        terminal,
        editor,
        link,
        ..
    } = streams;
    let news = News {
        writer: errors,
        alloc,
        is_told: matches!(origin, KeySource::Terminal(_)) && !asked.quiet,
    };
    let notes = ClientContext {
        trace,
        sizes,
        stands,
        terminal,
        news,
        causes,
        link,
    };
    let plain = plain_of(asked, port, line_end, origin, editor);
    let host = asked.host.as_str();
    Outcome::Talked(connect_plain(rt, alloc, host, plain, reader, writer, notes))
}

// A client's session.
fn run_connect<
    H: Network + Host + Lookout + Files<File = File>,
    R: Read + Drop + Send + 'static,
    W: Write,
    E: Drain,
>(
    rt: H,
    alloc: Global,
    asked: ConnectWords,
    streams: Streams<R>,
    writer: &mut W,
    errors: &mut E,
    causes: &mut Vec<u8>,
) -> Outcome
    requires { asked.plain ≡ None }
    ensures { ComesOfRun
        (machine_of (H.listens rt) (H.shares rt) (H.accepts rt) (H.finds rt) (H.dials rt)
        (H.sees rt) (⟦<H as Serves>⟧.serves rt))
        (Asked.Connect asked) streams.origin (R.remaining streams.reader)
        (W.contents writer.old) (W.contents writer.new) result }
{
    let Some(port) = port_of(&rt, alloc, &asked.port, causes) else {
        return Outcome::Connected(Err(ConnectFault::Network));
    };
    let Ok(trace) = open_trace(&rt, alloc, &asked, causes) else {
        return Outcome::Untraced;
    };
    let Ok(()) = open_log(&rt, &asked, &streams.link, causes) else {
        return Outcome::Untraced;
    };
    let Streams {
        origin,
        reader,
        sizes,
        stands,
        terminal,
        editor,
        link,
        ..
    } = streams;
    let news = News {
        writer: errors,
        alloc,
        is_told: matches!(origin, KeySource::Terminal(_)) && !asked.quiet,
    };
    let notes = ClientContext {
        trace,
        sizes,
        stands,
        terminal,
        news,
        causes,
        link,
    };
    let connecting = connecting_of(&asked, port, origin, editor);
    let host = asked.host.as_str();
    Outcome::Connected(connect(rt, alloc, host, connecting, reader, writer, notes))
}
