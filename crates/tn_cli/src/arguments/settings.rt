//! The options of a server and of a client.

ghost use Rattle.std.specs.Prelude.{IfSome};
ghost use Rattle.tn_cli.specs.arguments.Ranges.{IsWithin};

use std::alloc::{AllocError, Global};
use tn_discipline::Limit;
use tn_lines::LineEnd;
use tn_net::network::{Dialing, names_path};

/// The width and the height of a window of which no size is known, in characters.
pub const USUAL_WIDTH: u16 = 80;

pub const USUAL_HEIGHT: u16 = 24;

/// The place of a service.
#[derive(Debug, Drop, PartialEq, Eq)]
pub struct Address {
    /// The address of its host, or a name that has one; or `unix:` and the path of a socket.
    pub host: String,
    /// The port, from 1 to 65,535, or 0 for a socket at a path.
    pub port: u16,
}

impl Address {
    // The address that a text writes: `unix:` and a path; or what stands before its last colon writes the
    // host.
    pub(crate) fn from_text(alloc: Global, text: &str) -> Result<Option<Address>, AllocError> {
        match service_at(text) {
            Some((host, port)) => {
                let host = String::from_str(alloc, host)?;
                Ok(Some(Address { host, port }))
            },
            None => Ok(None),
        }
    }
}

// The host and the port of a service, or the name of its socket and 0.
fn service_at(text: &str) -> Option<(&str, u16)> {
    if !names_path(text) {
        return host_and_port(text);
    }
    if text == "unix:" {
        return None;
    }
    Some((text, 0))
}

fn host_and_port(text: &str) -> Option<(&str, u16)>
    ensures { IfSome result (λ read. IsWithin 1 65535 read.1) }
{
    let (front, number) = text.rsplit_once(':')?;
    let host = host_alone(front)?;
    let Ok(port) = number.parse::<u16>() else {
        return None;
    };
    if port == 0 {
        return None;
    }
    Some((host, port))
}

// The host that a text writes, bare or between brackets.
fn host_alone(text: &str) -> Option<&str> {
    let host = unbracketed(text)?;
    if host.is_empty() {
        return None;
    }
    Some(host)
}

fn unbracketed(text: &str) -> Option<&str> {
    match text.strip_prefix('[') {
        Some(rest) => rest.strip_suffix(']'),
        None => Some(text),
    }
}

// Returns the host and, if it writes one, the port that a text writes.
pub(crate) fn place_in(text: &str) -> Option<(&str, Option<u16>)>
    ensures { IfSome result (λ read. IfSome read.1 (IsWithin 1 65535)) }
{
    if has_port(text) {
        let (host, port) = host_and_port(text)?;
        return Some((host, Some(port)));
    }
    let host = host_alone(text)?;
    Some((host, None))
}

fn has_port(text: &str) -> bool {
    let begins = text.starts_with("[");
    let ends = text.ends_with("]");
    has_one_colon(text) || (begins && !ends)
}

fn has_one_colon(text: &str) -> bool {
    match text.split_once(':') {
        Some((_, rest)) => !has_colon(rest),
        None => false,
    }
}

fn has_colon(text: &str) -> bool {
    text.as_bytes().contains(&b':')
}

/// The socket that a server listens on.
#[derive(Clone, Copy, Debug, PartialEq, Eq)]
pub struct Socket {
    /// Its port, from 1 to 65,535, or 0 if it is handed in, or each host is a path.
    pub port: u16,
    /// The descriptor at which it is handed in, from 3 to 1,023, or 0 for a connection that is standard
    /// input.
    pub handed: Option<u16>,
}

/// The options of a server, as the arguments give them.
#[derive(Debug, Drop, PartialEq, Eq)]
pub struct ServeWords {
    /// The addresses to listen on, or names that have one, or `unix:` and the path of a socket, unless the
    /// socket is handed in.
    pub hosts: Vec<String>,
    pub socket: Socket,
    /// The most sessions at once, from 1 to 64.
    pub sessions: u16,
    /// The most of them from one address, from 1 to 64, or 0 for as many as there may be of all.
    pub per_host: Option<u16>,
    /// After how many accepted connections to end, from 1 to 1,000,000; `None` for never.
    pub count: Option<u32>,
    /// The file that ends it before that, once it is there.
    pub until: Option<String>,
    /// The number of ticks of the job in the background, from 0 to 1,000; at 0 there is no such
    /// job.
    pub ticks: u16,
    /// The most bytes in a line.
    pub line_limit: Limit,
    /// After how many seconds without a byte from the client a session ends, from 0 to 86,400; at 0 it never
    /// does.
    pub idle: Option<u32>,
    /// After how many seconds a session ends, from 0 to 86,400; at 0 it never does for that.
    pub longest: u32,
    /// The number of seconds that sessions have to end once no more are to begin, from 0 to 86,400;
    /// 0 sets no limit.
    pub drain: u32,
    /// The number of seconds for which a session dials the service to which it is joined, from 1 to
    /// 86,400.
    pub dial: u32,
    /// Whether connections are of a proxy, and begin with the line that names its client.
    pub proxied: bool,
    /// Whether the client is asked to edit the lines.
    pub local: bool,
    /// Whether a client without LINEMODE edits and echoes its lines itself.
    pub line_clients: bool,
    /// Whether connections and the ends of their sessions are noted.
    pub verbose: bool,
    /// Whether notes are written in pairs (logfmt), and not as sentences.
    pub logfmt: bool,
    /// The file for the counts of the server.
    pub metrics: Option<String>,
    /// The file that each client is shown first.
    pub banner: Option<String>,
    /// The line service that each session is joined to.
    pub to: Option<Address>,
    /// The bytes that end each line for that service.
    pub line_end: LineEnd,
    /// Whether a line that may have been truncated ends its session, in place of going to that
    /// service.
    pub ends_cut: bool,
    /// Whether signals and the end of file go to that service.
    pub sends_signals: bool,
    /// Whether that service is spoken to in Telnet.
    pub to_telnet: bool,
}

/// The key by which the user at a terminal speaks to the client itself.
#[derive(Clone, Copy, Debug, PartialEq, Eq)]
pub enum Escape {
    /// The control character of this code, from 1 to 31, is the escape key.
    Key(u8),
    /// No key is the escape key.
    None,
}

impl Escape {
    // The escape key that a text writes: a caret and a letter or a sign, or `none`.
    pub(crate) fn from_text(text: &str) -> Option<Escape> {
        match text.as_bytes() {
            b"none" => Some(Escape::None),
            [b'^', letter] => Some(Escape::Key(control_of(*letter)?)),
            _ => None,
        }
    }
}

// The control character that a caret before this letter or sign writes.
fn control_of(letter: u8) -> Option<u8> {
    match letter {
        // RETURN and a line feed end lines.
        b'J' | b'M' | b'j' | b'm' => None,
        b'A'..=b'_' => Some(letter - b'@'),
        b'a'..=b'z' => Some(letter - b'`'),
        _ => None,
    }
}

/// The terminal whose special characters decide how the keys of a terminal are taken.
#[derive(Clone, Copy, Debug, PartialEq, Eq)]
pub enum Characters {
    /// Those of the terminal that they are typed at.
    Own,
    /// The standard ones.
    Standard,
}

/// When the keys of a terminal go to the server.
#[derive(Clone, Copy, Debug, PartialEq, Eq)]
pub enum Mode {
    /// A line at a time while the server neither has LINEMODE on nor suppresses GO AHEAD, else as the server
    /// asks.
    Auto,
    /// One at a time, unless LINEMODE is on.
    Char,
}

/// A port, as it is asked for.
#[derive(Debug, Drop, PartialEq, Eq)]
pub enum Port {
    /// The port of this number, from 1 to 65,535.
    Number(u16),
    /// The port that services(5) gives the service of this name.
    Service(String),
}

/// The bytes that RETURN sends while LINEMODE is off (RFC 1123, section 3.3.1).
#[derive(Clone, Copy, Debug, PartialEq, Eq)]
pub enum ReturnBytes {
    CrNul,
    CrLf,
    Lf,
}

/// How to connect.
#[derive(Debug, Drop, PartialEq, Eq)]
pub struct ConnectWords {
    /// The address of the host, or a name that has one.
    pub host: String,
    pub port: Port,
    /// The width of the window in characters, or 0 if none is sent; `None` if none is given.
    pub width: Option<u16>,
    /// The height of the window in lines, or 0 if none is sent; `None` if none is given.
    pub height: Option<u16>,
    /// The most bytes in a line.
    pub line_limit: Limit,
    /// The key by which the user at a terminal speaks to the client itself.
    pub escape: Escape,
    /// The terminal whose special characters decide how the keys of a terminal are taken.
    pub characters: Characters,
    /// The bytes that RETURN sends at a terminal, if the user has chosen them.
    pub returns: Option<ReturnBytes>,
    /// The moment at which the keys of a terminal go to the server.
    pub mode: Mode,
    /// Whether Up and Down bring lines that were typed before.
    pub history: bool,
    /// The most bytes in a line that is edited while LINEMODE is off.
    pub line_mode_limit: Limit,
    /// The file that gets a trace of the connection.
    pub trace: Option<String>,
    /// The file that gets what the screen gets.
    pub log: Option<String>,
    /// Whether the time stands before each line of a log.
    pub log_times: bool,
    /// Whether the keys from a pipe are lines of a text, each of which RETURN ends.
    pub text: bool,
    /// The number of seconds after the end of its input at which the server gets the end of the
    /// stream, from 0 to 86,400.
    pub wait: u32,
    /// The number of seconds for which nothing may come after that, from 0 to 86,400; 0 sets no
    /// limit.
    pub patience: u32,
    /// The addresses that are tried, the source address, and the number of seconds for each, from 0
    /// to 86,400.
    pub dialing: Dialing,
    /// Whether a terminal gets no lines about the connection.
    pub quiet: bool,
    /// The bytes that end each line, if the connection is without Telnet.
    pub plain: Option<LineEnd>,
}
