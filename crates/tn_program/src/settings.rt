//! The request of the arguments, as sessions over connections take it.

ghost use Rattle.std.specs.{List.list_all, Prelude.{◌≡◌, option_map, string_bytes}};
ghost use Rattle.tn_connect.specs.Clients.{window_of};
ghost use Rattle.tn_program.specs.Settings.{count_as, escape_as, lines_as, options_as, origin_as};
ghost use Rattle.tn_program.specs.Settings.{half_of, idle_as, is_local, is_loopback, line_mode_as};
ghost use Rattle.tn_program.specs.Settings.{per_host_as, return_as, usual_per_host, window_as};

use log::Level;
use std::alloc::{AllocError, Global};
use tn_cli::arguments::{
    Characters, Escape, LineEnd, Mode, ReturnBytes, USUAL_HEIGHT, USUAL_WIDTH,
};
use tn_connect::{
    Connecting, EditKeys, EditorSettings, KeySource, OwnCharacters, Plain, ReturnKey, Words,
};
use tn_discipline::Limit;
use tn_net::network::names_path;
use tn_serve::services::{Answerer, Answerers, LineFormat};
use tn_serve::{Call, Finished, NoteFormat, NoteStyle, Service, Serving, SessionOptions};
use tn_server::{Editing, Opening};

/// After how many connections a server without end stops: more than can ever be accepted.
const WITHOUT_END: u64 = u64::MAX;

/// The most sessions of one address if that has no bound: as many as there may be of all.
const ANY_NUMBER: u16 = 64;

/// After how many seconds a session of a host that is not of loopback is idle.
const HOUR: u32 = 3_600;

/// Gives each session the jobs of `tn serve`.
#[derive(Clone, Copy, Drop)]
pub struct Answering {
    /// The number of ticks of the job in the background; there is no such job if it is 0.
    pub ticks: u16,
}

impl Service for Answering {
    ghost use Rattle.tn_program.specs.Settings.{AnswersAsAsked};

    type Job = Answerer;

    type Jobs = Answerers;

    ghost makes = { λ a jobs. AnswersAsAsked a.ticks jobs };

    fn session(&mut self, _alloc: Global, _call: Call) -> Result<Answerers, AllocError> {
        Ok(Answerers::new(self.ticks))
    }

    fn ended(&mut self, _number: usize, _finished: &Finished) {}
}

// Returns the options of the server that was asked for.
pub(crate) fn serving_of(asked: &tn_cli::arguments::ServeWords) -> Serving
    ensures sessions { result.sessions ≡ asked.now.sessions }
    ensures per_host { result.per_host
        ≡ per_host_as asked.now.per_host (is_local asked.now) asked.now.sessions }
    ensures count { result.count ≡ count_as asked.now.count }
    ensures drain { result.drain ≡ asked.now.drain }
    ensures proxied { result.is_proxied ≡ asked.now.proxied }
    ensures options { result.options ≡ options_as asked.now }
{
    let per_host = per_host_of(asked.per_host, is_local(asked), asked.sessions);
    Serving {
        sessions: asked.sessions,
        per_host,
        count: count_of(asked.count),
        drain: asked.drain,
        is_proxied: asked.proxied,
        is_handed: asked.socket.handed.is_some(),
        options: options_of(asked),
    }
}

// Returns whether only this machine reaches a server, as far as its arguments show.
fn is_local(asked: &tn_cli::arguments::ServeWords) -> bool
    ensures { result ≡ is_local asked.now }
{
    let handed = asked.socket.handed.is_some();
    let are_loopback = are_loopback(&asked.hosts);
    !handed && are_loopback
}

fn are_loopback(hosts: &[String]) -> bool
    ensures { result ≡ list_all (λ host. is_loopback (string_bytes host)) hosts.now }
{
    hosts.iter().all(|host| is_loopback(host))
}

// Returns whether a host is of loopback, by its text, or a path of this machine. A name that only
// resolves to such an address is none.
fn is_loopback(host: &String) -> bool
    ensures { result ≡ is_loopback (string_bytes host.now) }
{
    let host = host.as_str();
    host.starts_with("127.") || host == "::1" || host == "localhost" || names_path(host)
}

// Returns the most sessions of one address.
fn per_host_of(given: Option<u16>, loopback: bool, sessions: u16) -> u16
    ensures { result ≡ per_host_as given loopback sessions }
{
    match given {
        Some(count) => { if count == 0 { ANY_NUMBER } else { count } },
        None => usual_per_host(loopback, sessions),
    }
}

fn usual_per_host(loopback: bool, sessions: u16) -> u16
    ensures { result ≡ usual_per_host loopback sessions }
{
    if loopback {
        ANY_NUMBER
    } else {
        half_of(sessions)
    }
}

fn half_of(sessions: u16) -> u16
    ensures { result ≡ half_of sessions }
{
    if sessions == 1 { 1 } else { sessions / 2 }
}

// Returns the number of seconds after which a session is idle.
fn idle_of(given: Option<u32>, loopback: bool) -> u32
    ensures { result ≡ idle_as given loopback }
{
    match (given, loopback) {
        (Some(seconds), _) => seconds,
        (None, true) => 0,
        (None, false) => HOUR,
    }
}

// Returns the form of the notes.
pub(crate) fn note_style_of(asked: &tn_cli::arguments::ServeWords, is_journal: bool) -> NoteStyle {
    let format = if asked.logfmt {
        NoteFormat::Logfmt
    } else {
        NoteFormat::Text
    };
    NoteStyle { format, is_journal }
}

// Returns the level of what is noted: with `--verbose` each event, else those that an operator has
// to see.
pub(crate) fn note_level_of(asked: &tn_cli::arguments::ServeWords) -> Level {
    if asked.verbose {
        Level::Info
    } else {
        Level::Warn
    }
}

// Returns the number of connections after which the server ends.
fn count_of(asked: Option<u32>) -> u64
    ensures { result ≡ count_as asked }
{
    match asked {
        Some(count) => u64::from(count),
        None => WITHOUT_END,
    }
}

// Returns the maker of the jobs that were asked for, if each session has its own.
pub(crate) fn answering_of(asked: &tn_cli::arguments::ServeWords) -> Answering
    ensures { result.ticks ≡ asked.now.ticks }
{
    Answering { ticks: asked.ticks }
}

// Returns the form in which lines go to the service that was asked for.
pub(crate) fn lines_of(asked: &tn_cli::arguments::ServeWords) -> LineFormat
    ensures { result ≡ lines_as asked.now }
{
    LineFormat {
        line_end: asked.line_end,
        limit: asked.line_limit,
        ends_cut: asked.ends_cut,
        sends_signals: asked.sends_signals,
        speaks_telnet: asked.to_telnet,
    }
}

// Returns the options that all sessions of the request share.
pub(crate) fn options_of(asked: &tn_cli::arguments::ServeWords) -> SessionOptions
    ensures { result ≡ options_as asked.now }
{
    let opening = if asked.line_clients {
        Opening::Lines
    } else {
        Opening::Keys
    };
    let editing = if asked.local {
        Editing::Local
    } else {
        Editing::Remote
    };
    SessionOptions {
        line_limit: asked.line_limit,
        opening,
        editing,
        idle: idle_of(asked.idle, is_local(asked)),
        longest: asked.longest,
    }
}

pub(crate) fn connecting_of(
    asked: &tn_cli::arguments::ConnectWords,
    port: u16,
    origin: KeySource,
    editor: EditorSettings,
) -> Connecting
    ensures window { window_of result ≡ window_as asked.now }
    ensures origin { result.origin ≡ origin_as asked.now.characters origin }
    ensures escape { result.escape ≡ escape_as asked.now.escape }
    ensures returns { result.returns ≡ option_map return_as asked.now.returns }
    ensures line_mode { result.line_mode ≡ line_mode_as asked.now.mode asked.now.line_mode_limit }
    ensures text { result.text ≡ asked.now.text }
    ensures port { result.port ≡ port }
    ensures wait { result.wait ≡ asked.now.wait }
    ensures patience { result.patience ≡ asked.now.patience }
    ensures dialing { result.dialing ≡ asked.now.dialing }
{
    Connecting {
        port,
        width: asked.width.unwrap_or(USUAL_WIDTH),
        height: asked.height.unwrap_or(USUAL_HEIGHT),
        line_limit: asked.line_limit,
        origin: origin_of(asked.characters, origin),
        escape: escape_of(asked.escape),
        returns: asked.returns.map(return_of),
        editing: editor_of(asked, editor),
        line_mode: line_mode_of(asked.mode, asked.line_mode_limit),
        text: asked.text,
        wait: asked.wait,
        patience: asked.patience,
        dialing: asked.dialing,
    }
}

// Returns the options of the talk that was asked for, with a service that takes lines.
pub(crate) fn plain_of(
    asked: &tn_cli::arguments::ConnectWords,
    port: u16,
    line_end: LineEnd,
    origin: KeySource,
    editor: EditorSettings,
) -> Plain
    ensures port { result.port ≡ port }
    ensures limit { result.line_limit ≡ asked.now.line_limit }
    ensures line_end { result.line_end ≡ line_end }
    ensures origin { result.origin ≡ origin_as asked.now.characters origin }
    ensures escape { result.escape ≡ escape_as asked.now.escape }
    ensures wait { result.wait ≡ asked.now.wait }
    ensures patience { result.patience ≡ asked.now.patience }
    ensures dialing { result.dialing ≡ asked.now.dialing }
{
    let wait = asked.wait;
    Plain {
        port,
        line_limit: asked.line_limit,
        editing: plain_editor_of(asked, editor),
        line_end,
        origin: origin_of(asked.characters, origin),
        escape: escape_of(asked.escape),
        wait,
        patience: asked.patience,
        dialing: asked.dialing,
    }
}

// Returns the source of the keys, and by whose characters those of a terminal are taken.
fn origin_of(characters: Characters, origin: KeySource) -> KeySource
    ensures { result ≡ origin_as characters origin }
{
    match (characters, origin) {
        (Characters::Standard, KeySource::Terminal(_)) => KeySource::Terminal(
            OwnCharacters::none(),
        ),
        _ => origin,
    }
}

// Returns how lines are edited at a terminal with these settings. With the standard characters it
// has no editing keys, and none that stops the screen.
fn editor_of(asked: &tn_cli::arguments::ConnectWords, editor: EditorSettings) -> EditorSettings {
    let (keys, start, stop) = match asked.characters {
        Characters::Own => (editor.keys, editor.start, editor.stop),
        Characters::Standard => (plain_keys(editor.keys.words), None, None),
    };
    EditorSettings {
        keys,
        start,
        stop,
        echoctl: editor.echoctl,
        has_history: asked.history,
    }
}

fn plain_keys(words: Words) -> EditKeys {
    EditKeys {
        werase: None,
        rprnt: None,
        iutf8: false,
        words,
    }
}

// Returns how lines are edited without Telnet. The terminal itself stops its screen then.
fn plain_editor_of(
    asked: &tn_cli::arguments::ConnectWords,
    editor: EditorSettings,
) -> EditorSettings {
    EditorSettings {
        start: None,
        stop: None,
        ..editor_of(asked, editor)
    }
}

// Returns the most bytes of a line that is edited while LINEMODE is off, if any is.
fn line_mode_of(mode: Mode, limit: Limit) -> Option<Limit>
    ensures { result ≡ line_mode_as mode limit }
{
    match mode {
        Mode::Auto => Some(limit),
        Mode::Char => None,
    }
}

fn return_of(returns: ReturnBytes) -> ReturnKey
    ensures { result ≡ return_as returns }
{
    match returns {
        ReturnBytes::CrNul => ReturnKey::CrNul,
        ReturnBytes::CrLf => ReturnKey::CrLf,
        ReturnBytes::Lf => ReturnKey::Lf,
    }
}

fn escape_of(escape: Escape) -> Option<u8>
    ensures { result ≡ escape_as escape }
{
    match escape {
        Escape::Key(key) => Some(key),
        Escape::None => None,
    }
}
