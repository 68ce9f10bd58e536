//! How to serve, as a command line asks for it.

ghost use Rattle.std.specs.Prelude.{IfOk, IfSome};
ghost use Rattle.tn_cli.specs.arguments.Ranges.{AreServeNumbersWithin, IsWithin, ServesWithin};

use crate::arguments::lacks::{Lack, NO_NUMBER, lacking, no_value};
use crate::arguments::options::{
    BANNER, COUNT, CR, CRLF, DIAL, DRAIN, FOREVER, IDLE, LIMIT, LINE, LINE_CLIENTS, LINE_CUT,
    LOCALLY, LONGEST, METRICS, MOST_PATH, NOTES, PER_HOST, PROXIED, SIGNALS, TICKS, TO, TO_TELNET,
    UNTIL, VERBOSE,
};
use crate::arguments::settings::{Address, ServeWords};
use crate::arguments::sockets::{hosts_of, socket_of};
use crate::arguments::values::{
    given_number, given_short, is_flagged, is_given, number, short_number,
};
use crate::arguments::words::WordsFault;
use clap::ArgMatches;
use std::alloc::Global;
use tn_discipline::Limit;
use tn_lines::LineEnd;

/// After how many connections a server ends if nothing else is asked for.
const ONE: u32 = 1;

const NO_SERVICE_LINE_END: &str = "'--crlf' and '--cr' exclude each other, and need '--to'";

const NO_SERVICE: &str = "'--line-cut' needs '--to'";

const NO_SERVICE_FOR_SIGNALS: &str = "'--signals' needs '--to'";

const NO_SERVICE_FOR_TELNET: &str = "'--to-telnet' needs '--to'";

const NO_SIGNALS: &str = "'--signals <WHAT>': it is neither `act` nor `send`";

const NO_CUT: &str = "'--line-cut <WHAT>': it is neither `send` nor `end`";

const NO_FORM: &str = "'--notes <FORM>': it is neither `text` nor `logfmt`";

const NO_UNTIL: &str = "'--until <FILE>' needs a path of 1 to 4095 bytes";

const NO_METRICS: &str = "'--metrics <FILE>' needs a path of 1 to 4095 bytes";

const NO_BANNER: &str = "'--banner <FILE>' needs a path of 1 to 4095 bytes";

const TWO_COUNTS: &str = "'--count' and '--forever' exclude each other";

const NO_ADDRESS: &str =
    "'--to <HOST:PORT>': it is neither a host with a port of 1 to 65535 behind a colon, nor unix: and a path";

/// How to serve.
pub(crate) fn serving(alloc: Global, words: &ArgMatches<'_>) -> Result<ServeWords, WordsFault>
    ensures { IfOk result ServesWithin }
{
    let Some(numbers) = serve_numbers(words) else {
        return Err(no_value(alloc));
    };
    let choices = match serve_choices(words) {
        Ok(choices) => choices,
        Err(lack) => return Err(lacking(alloc, &lack)),
    };
    let hosts = hosts_of(alloc, words)?;
    let socket = socket_of(alloc, words, &hosts)?;
    let to = to_of(alloc, words)?;
    let until = path_of(alloc, words, UNTIL, NO_UNTIL)?;
    let metrics = path_of(alloc, words, METRICS, NO_METRICS)?;
    let banner = path_of(alloc, words, BANNER, NO_BANNER)?;
    Ok(ServeWords {
        hosts,
        socket,
        sessions: numbers.sessions,
        per_host: numbers.per_host,
        count: choices.count,
        until,
        ticks: numbers.ticks,
        line_limit: numbers.line_limit,
        idle: numbers.idle,
        longest: numbers.longest,
        drain: numbers.drain,
        dial: numbers.dial,
        proxied: words.get_flag(PROXIED),
        local: words.get_flag(LOCALLY),
        line_clients: words.get_flag(LINE_CLIENTS),
        verbose: words.get_flag(VERBOSE),
        logfmt: choices.logfmt,
        metrics,
        banner,
        to,
        line_end: choices.line_end,
        ends_cut: choices.ends_cut,
        sends_signals: choices.sends_signals,
        to_telnet: choices.to_telnet,
    })
}

/// The numbers of how to serve.
#[derive(Clone, Copy)]
pub(crate) struct ServeNumbers {
    sessions: u16,
    per_host: Option<u16>,
    ticks: u16,
    line_limit: Limit,
    idle: Option<u32>,
    longest: u32,
    drain: u32,
    dial: u32,
}

// The numbers; `None` if one is missing or out of its range.
fn serve_numbers(words: &ArgMatches<'_>) -> Option<ServeNumbers>
    ensures { IfSome result AreServeNumbersWithin }
{
    Some(ServeNumbers {
        sessions: short_number(words, LIMIT)?,
        per_host: given_short(words, PER_HOST)?,
        ticks: short_number(words, TICKS)?,
        line_limit: Limit::new(short_number(words, LINE)?)?,
        idle: given_number(words, IDLE)?,
        longest: number(words, LONGEST)?,
        drain: number(words, DRAIN)?,
        dial: number(words, DIAL)?,
    })
}

/// What several options of a server choose together.
#[derive(Clone, Copy)]
struct ServeChoices {
    line_end: LineEnd,
    ends_cut: bool,
    sends_signals: bool,
    to_telnet: bool,
    logfmt: bool,
    count: Option<u32>,
}

fn serve_choices<'a>(words: &ArgMatches<'a>) -> Result<ServeChoices, Lack<'a>>
    ensures { IfOk result (λ choices. IfSome choices.count (IsWithin 1 1000000)) }
{
    Ok(ServeChoices {
        line_end: service_line_end(words)?,
        ends_cut: ends_cut(words)?,
        sends_signals: sends_signals(words)?,
        to_telnet: to_telnet(words)?,
        logfmt: logfmt(words)?,
        count: count(words)?,
    })
}

// What ends a line for the service.
fn service_line_end<'a>(words: &ArgMatches<'a>) -> Result<LineEnd, Lack<'a>> {
    let crlf = is_flagged(words, CRLF);
    let cr = is_flagged(words, CR);
    match (is_given(words, TO), crlf, cr) {
        (_, false, false) => Ok(LineEnd::Lf),
        (true, true, false) => Ok(LineEnd::CrLf),
        (true, false, true) => Ok(LineEnd::Cr),
        _ => Err(Lack::Words(NO_SERVICE_LINE_END)),
    }
}

// Whether a line that may have been truncated ends its session.
fn ends_cut<'a>(words: &ArgMatches<'a>) -> Result<bool, Lack<'a>> {
    match words.get_str(LINE_CUT) {
        None => Ok(false),
        Some(_) if !is_given(words, TO) => Err(Lack::Words(NO_SERVICE)),
        Some("send") => Ok(false),
        Some("end") => Ok(true),
        Some(text) => Err(Lack::Value(text, NO_CUT)),
    }
}

// Whether signals go to the service.
fn sends_signals<'a>(words: &ArgMatches<'a>) -> Result<bool, Lack<'a>> {
    match words.get_str(SIGNALS) {
        None => Ok(false),
        Some(_) if !is_given(words, TO) => Err(Lack::Words(NO_SERVICE_FOR_SIGNALS)),
        Some("act") => Ok(false),
        Some("send") => Ok(true),
        Some(text) => Err(Lack::Value(text, NO_SIGNALS)),
    }
}

// Whether the service is spoken to in Telnet.
fn to_telnet<'a>(words: &ArgMatches<'a>) -> Result<bool, Lack<'a>> {
    match (is_given(words, TO), is_flagged(words, TO_TELNET)) {
        (_, false) => Ok(false),
        (true, true) => Ok(true),
        (false, true) => Err(Lack::Words(NO_SERVICE_FOR_TELNET)),
    }
}

// Whether notes are written in pairs.
fn logfmt<'a>(words: &ArgMatches<'a>) -> Result<bool, Lack<'a>> {
    match words.get_str(NOTES) {
        None | Some("text") => Ok(false),
        Some("logfmt") => Ok(true),
        Some(text) => Err(Lack::Value(text, NO_FORM)),
    }
}

// After how many connections to end, if ever.
fn count<'a>(words: &ArgMatches<'a>) -> Result<Option<u32>, Lack<'a>>
    ensures { IfOk result (λ count. IfSome count (IsWithin 1 1000000)) }
{
    let forever = is_flagged(words, FOREVER);
    match given_number(words, COUNT) {
        None => Err(NO_NUMBER),
        Some(None) if forever => Ok(None),
        Some(None) => Ok(Some(ONE)),
        Some(Some(_)) if forever => Err(Lack::Words(TWO_COUNTS)),
        Some(count) => Ok(count),
    }
}

// The address of the service, if one is named.
fn to_of(alloc: Global, words: &ArgMatches<'_>) -> Result<Option<Address>, WordsFault> {
    let Some(text) = words.get_str(TO) else {
        return Ok(None);
    };
    match Address::from_text(alloc, text)? {
        Some(address) => Ok(Some(address)),
        None => Err(lacking(alloc, &Lack::Value(text, NO_ADDRESS))),
    }
}

// The path that an option names, if it is given; `lack` is what is wrong with another text.
fn path_of(
    alloc: Global,
    words: &ArgMatches<'_>,
    name: &str,
    lack: &'static str,
) -> Result<Option<String>, WordsFault> {
    let Some(text) = words.get_str(name) else {
        return Ok(None);
    };
    if text.is_empty() || MOST_PATH < text.len() {
        return Err(lacking(alloc, &Lack::Words(lack)));
    }
    Ok(Some(String::from_str(alloc, text)?))
}
