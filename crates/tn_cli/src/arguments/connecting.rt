//! How to connect, as a command line asks for it.

ghost use Rattle.std.specs.Prelude.{IfOk, IfSome};
ghost use Rattle.tn_cli.specs.arguments.Ranges.{AreConnectNumbersWithin, ConnectsWithin};

use crate::arguments::dialing::{family, source_of};
use crate::arguments::lacks::{Lack, lacking, no_value};
use crate::arguments::options::{
    CR, ESCAPE, HEIGHT, KEYS, LF, LINE, LOG, LOG_TIMES, MODE, NO_HISTORY, PATIENCE, PLAIN, QUIET,
    RETURN, TEXT, TIMEOUT, TRACE, WAIT, WIDTH,
};
use crate::arguments::places::place_of;
use crate::arguments::settings::{Characters, ConnectWords, Escape, Mode, ReturnBytes};
use crate::arguments::values::{given_short, is_flagged, is_given, number, text_of};
use crate::arguments::words::WordsFault;
use clap::ArgMatches;
use std::alloc::Global;
use tn_discipline::Limit;
use tn_lines::LineEnd;
use tn_net::network::{Dialing, Family};

/// The key that speaks to a client at a terminal if no other one is given.
const USUAL_ESCAPE: &str = "^]";

/// How many bytes a line may have that is edited at the terminal while LINEMODE is off.
const LONG_LINE: u16 = 4_095;

const NO_LINE_END: &str = "'--lf' and '--cr' exclude each other, and need '--plain'";

const NO_TELNET: &str = "'--plain' excludes '--mode', '--return', '--width' and '--height'";

const NO_ESCAPE: &str =
    "'--escape <KEY>': it is neither `none` nor a caret and one of A to Z, [, \\, ], ^ and _";

const NO_RETURN: &str = "'--return <BYTES>': it is none of `crnul`, `crlf` and `lf`";

const NO_MODE: &str = "'--mode <HOW>': it is neither `auto` nor `char`";

const NO_CHARACTERS: &str = "'--keys <WHOSE>': it is neither `own` nor `standard`";

/// How to connect.
pub(crate) fn connecting(alloc: Global, words: &ArgMatches<'_>) -> Result<ConnectWords, WordsFault>
    ensures { IfOk result ConnectsWithin }
{
    let Some(numbers) = connect_numbers(words) else {
        return Err(no_value(alloc));
    };
    let place = place_of(alloc, words)?;
    let choices = match connect_choices(words) {
        Ok(choices) => choices,
        Err(lack) => return Err(lacking(alloc, &lack)),
    };
    let source = source_of(alloc, words)?;
    let trace = text_of(alloc, words, TRACE)?;
    let log = text_of(alloc, words, LOG)?;
    Ok(ConnectWords {
        host: place.host,
        port: place.port,
        width: numbers.width,
        height: numbers.height,
        line_limit: numbers.line_limit,
        escape: choices.escape,
        characters: choices.characters,
        returns: choices.returns,
        mode: choices.mode,
        history: !words.get_flag(NO_HISTORY),
        line_mode_limit: line_mode_limit(words, numbers.line_limit),
        trace,
        log,
        log_times: words.get_flag(LOG_TIMES),
        text: words.get_flag(TEXT),
        wait: numbers.wait,
        patience: numbers.patience,
        dialing: Dialing {
            family: choices.family,
            source,
            seconds: numbers.timeout,
        },
        quiet: words.get_flag(QUIET),
        plain: choices.plain,
    })
}

/// The numbers of how to connect.
#[derive(Clone, Copy)]
pub(crate) struct ConnectNumbers {
    width: Option<u16>,
    height: Option<u16>,
    line_limit: Limit,
    wait: u32,
    patience: u32,
    timeout: u32,
}

// The numbers; `None` if one is missing or out of its range.
fn connect_numbers(words: &ArgMatches<'_>) -> Option<ConnectNumbers>
    ensures { IfSome result AreConnectNumbersWithin }
{
    Some(ConnectNumbers {
        width: given_short(words, WIDTH)?,
        height: given_short(words, HEIGHT)?,
        line_limit: Limit::new(line_bytes(words)?)?,
        wait: number(words, WAIT)?,
        patience: number(words, PATIENCE)?,
        timeout: number(words, TIMEOUT)?,
    })
}

// How many bytes a line may have: by its option, else as many as fit, or one of a standard terminal.
fn line_bytes(words: &ArgMatches<'_>) -> Option<u16> {
    match given_short(words, LINE)? {
        Some(bytes) => Some(bytes),
        None if is_flagged(words, PLAIN) => Some(LONG_LINE),
        None => Some(Limit::standard().bytes()),
    }
}

// How many bytes a line may have that is edited while LINEMODE is off.
fn line_mode_limit(words: &ArgMatches<'_>, line_limit: Limit) -> Limit {
    if is_given(words, LINE.name) {
        return line_limit;
    }
    Limit::new(LONG_LINE).unwrap_or(line_limit)
}

/// What options of a client choose by words.
#[derive(Clone, Copy)]
struct ConnectChoices {
    escape: Escape,
    characters: Characters,
    returns: Option<ReturnBytes>,
    mode: Mode,
    family: Option<Family>,
    plain: Option<LineEnd>,
}

fn connect_choices<'a>(words: &ArgMatches<'a>) -> Result<ConnectChoices, Lack<'a>> {
    Ok(ConnectChoices {
        escape: escape(words)?,
        characters: characters(words)?,
        returns: returns(words)?,
        mode: mode(words)?,
        plain: line_end(words)?,
        family: family(words)?,
    })
}

fn escape<'a>(words: &ArgMatches<'a>) -> Result<Escape, Lack<'a>> {
    let text = words.get_str(ESCAPE).unwrap_or(USUAL_ESCAPE);
    Escape::from_text(text).ok_or(Lack::Value(text, NO_ESCAPE))
}

fn characters<'a>(words: &ArgMatches<'a>) -> Result<Characters, Lack<'a>> {
    match words.get_str(KEYS) {
        None | Some("own") => Ok(Characters::Own),
        Some("standard") => Ok(Characters::Standard),
        Some(text) => Err(Lack::Value(text, NO_CHARACTERS)),
    }
}

fn mode<'a>(words: &ArgMatches<'a>) -> Result<Mode, Lack<'a>> {
    match words.get_str(MODE) {
        None | Some("auto") => Ok(Mode::Auto),
        Some("char") => Ok(Mode::Char),
        Some(text) => Err(Lack::Value(text, NO_MODE)),
    }
}

fn returns<'a>(words: &ArgMatches<'a>) -> Result<Option<ReturnBytes>, Lack<'a>> {
    match words.get_str(RETURN) {
        None => Ok(None),
        Some("crnul") => Ok(Some(ReturnBytes::CrNul)),
        Some("crlf") => Ok(Some(ReturnBytes::CrLf)),
        Some("lf") => Ok(Some(ReturnBytes::Lf)),
        Some(text) => Err(Lack::Value(text, NO_RETURN)),
    }
}

// What ends a line that is sent without Telnet, if that is asked for.
fn line_end<'a>(words: &ArgMatches<'a>) -> Result<Option<LineEnd>, Lack<'a>> {
    let plain = is_flagged(words, PLAIN);
    if plain && has_telnet_option(words) {
        return Err(Lack::Words(NO_TELNET));
    }
    match (plain, is_flagged(words, LF), is_flagged(words, CR)) {
        (false, false, false) => Ok(None),
        (true, false, false) => Ok(Some(LineEnd::CrLf)),
        (true, true, false) => Ok(Some(LineEnd::Lf)),
        (true, false, true) => Ok(Some(LineEnd::Cr)),
        _ => Err(Lack::Words(NO_LINE_END)),
    }
}

// Whether an option is given that is of use to a client of Telnet only.
fn has_telnet_option(words: &ArgMatches<'_>) -> bool {
    is_given(words, RETURN)
        || is_given(words, WIDTH.name)
        || is_given(words, HEIGHT.name)
        || is_given(words, MODE)
}
