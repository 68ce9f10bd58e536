//! The requests of the user at a terminal to the client itself.

use crate::client_files::ClientFiles;
use crate::escaping::{Echo, EscapeCommand, Next, Obey, Typed};
use crate::link::Link;
use crate::own_characters::OwnCharacters;
use crate::returns::ReturnKey;
use crate::terminal::Terminal;
use std::alloc::Global;
use std::io::Write;
use std::str;
use std::sync::Wait;
use tn_cores::streams::WindowSize;

/// The lines that may be typed after the escape character.
const HELP: &[u8] = b"quit, close, q  close the connection and leave\r\n\
    again           close the connection and connect again\r\n\
    status, s       show the state of the session\r\n\
    suspend, z      stop, until the shell goes on with it\r\n\
    log FILE        append to FILE what the screen gets from now on\r\n\
    log off         end that\r\n";

/// The lines that may be typed only in a session of Telnet.
const TELNET_HELP: &[u8] = b"send brk, b     send BREAK, which some monitors wait for\r\n\
    send ip, i      interrupt what runs at the other end\r\n\
    send ayt, a     ask whether the other end is there\r\n\
    return crlf     send CR LF at RETURN while LINEMODE is off; or crnul, or lf\r\n\
    mode char       send each key at once while LINEMODE is off; mode auto edits lines\r\n";

const LAST_HELP: &[u8] = b"help, ?         show these lines\r\n\
    An empty line goes back. The escape character again sends itself.\r\n";

/// The number of bytes before the name of the file in a line that begins a log.
const BEFORE_FILE: usize = 4;

/// A connection, as the client describes it to its user.
#[derive(Clone, Copy)]
pub struct About<'a> {
    pub link: &'a Link,
    /// The host and the port that the user asked for.
    pub host: &'a str,
    pub port: u16,
    /// The window of a session of Telnet; `None` if the connection is without Telnet.
    pub window: Option<WindowSize>,
}

/// The parts of the client that do the user's requests to the client itself, at once.
#[derive(Drop)]
pub(crate) struct Deeds<'a, H> {
    pub(crate) rt: H,
    pub(crate) alloc: Global,
    pub(crate) about: About<'a>,
    pub(crate) terminal: Terminal,
    pub(crate) own: OwnCharacters,
}

impl<'a, H: ClientFiles + Wait> Obey for Deeds<'a, H> {
    fn obey(&mut self, command: EscapeCommand, line: &[u8]) {
        match command {
            EscapeCommand::Close(next) => self.close(next),
            EscapeCommand::Help => self.show_help(),
            EscapeCommand::Status => self.show_status(),
            EscapeCommand::Suspend => {
                if !self.terminal.stop() {
                    self.terminal.show(b"nobody here can stop it\r\n");
                }
            },
            EscapeCommand::LogTo => self.begin_log(line),
            EscapeCommand::LogOff => self.end_log(),
            EscapeCommand::Mode => self.set_mode(line),
            EscapeCommand::Return => self.show_return(line),
            EscapeCommand::Unknown => self.terminal.show(
                b"unknown command; the escape character and help list them\r\n",
            ),
        }
    }

    fn echo(&mut self, echo: Echo) {
        self.terminal.echo(echo);
    }
}

impl<'a, H> Deeds<'a, H> {
    // Closes the connection, if the launcher, which started the program, gets the word for what is
    // to follow.
    fn close(&mut self, next: Next) {
        if self.terminal.leave(next) {
            self.about.link.leave();
        } else {
            self.terminal.show(b"nobody here can connect again\r\n");
        }
    }

    /// Shows that no control function goes to a service that takes lines.
    pub(crate) fn refuse_control(&mut self) {
        self.terminal
            .show(b"without Telnet no control function can be sent\r\n");
    }

    // Begins or ends line mode by a line.
    fn set_mode(&mut self, line: &[u8]) {
        let text: &[u8] = if self.about.window.is_none() {
            b"without Telnet lines are always edited here\r\n"
        } else if line == b"mode char".as_slice() {
            self.about.link.set_line_mode(false);
            b"each key is sent at once while LINEMODE is off\r\n"
        } else {
            self.about.link.set_line_mode(true);
            b"lines are edited here while the other end takes whole lines\r\n"
        };
        self.terminal.show(text);
    }

    // Shows the bytes that RETURN sends from then on, as a line asked.
    fn show_return(&mut self, line: &[u8]) {
        if self.about.window.is_none() {
            self.terminal.show(b"without Telnet --lf and --cr choose what RETURN sends\r\n");
        } else if let Some(returns) = ReturnKey::asked(line) {
            let mut text = Vec::new(self.alloc);
            let _ = write!(text, "RETURN sends {}\r\n", returns.name());
            self.terminal.show(&text);
        }
    }

    fn show_help(&mut self) {
        self.terminal.show(HELP);
        if self.about.window.is_some() {
            self.terminal.show(TELNET_HELP);
        }
        self.terminal.show(LAST_HELP);
    }

    fn show_status(&mut self) {
        let About {
            link,
            host,
            port,
            window,
        } = self.about;
        let mut text = Vec::new(self.alloc);
        let _ = write!(text, "connected to {} port {}\r\n", host, port);
        let echo = place_of(!link.echoes_there());
        let _ = write!(text, "{}, echo is made {}\r\n", editing_of(link), echo);
        if let Some(size) = window {
            let _ = write!(text, "window {} by {}\r\n", size.width, size.height);
        }
        write_counts(&mut text, link);
        write_own(&mut text, &self.own);
        self.terminal.show(&text);
    }
}

impl<'a, H: ClientFiles + Wait> Deeds<'a, H> {
    /// Does what a command asks for that needs no line.
    pub(crate) fn obey_alone(&mut self, typed: Typed) {
        if let Typed::Command(command) = typed {
            self.obey(command, &[]);
        }
    }

    // Begins the log that a line asks for, in place of one that is there.
    fn begin_log(&mut self, line: &[u8]) {
        let name = line.get(BEFORE_FILE..).unwrap_or(b"");
        let Ok(path) = str::from_utf8(name) else {
            return;
        };
        match self.rt.append_to(path) {
            Ok(file) => {
                self.about.link.log_to(&self.rt, file);
                self.terminal.show(b"the log begins\r\n");
            },
            Err(error) => {
                let mut text = Vec::new(self.alloc);
                let _ = write!(text, "{}: {}\r\n", path, error);
                self.terminal.show(&text);
            },
        }
    }

    fn end_log(&mut self) {
        if self.about.link.end_log(&self.rt) {
            self.terminal.show(b"the log ends\r\n");
        } else {
            self.terminal.show(b"there is no log\r\n");
        }
    }
}

fn write_counts(text: &mut Vec<u8>, link: &Link) {
    let (came, went) = (link.came(), link.went());
    let bytes = if came == 1 { "byte" } else { "bytes" };
    let _ = write!(text, "{} {} came, {} went\r\n", came, bytes, went);
}

// Appends a line with the user's own characters that a session gets as other ones, if there are
// any.
fn write_own(text: &mut Vec<u8>, own: &OwnCharacters) {
    let before = write_one(text, own, "your own keys:", "intr", own.intr);
    let before = write_one(text, own, before, "quit", own.quit);
    let before = write_one(text, own, before, "susp", own.susp);
    let before = write_one(text, own, before, "erase", own.erase);
    let before = write_one(text, own, before, "kill", own.kill);
    let before = write_one(text, own, before, "eof", own.eof);
    if before == "," {
        let _ = write!(text, "\r\n");
    }
}

// Writes one of them after the text that comes before it. Returns the text that comes before the next.
fn write_one(
    text: &mut Vec<u8>,
    own: &OwnCharacters,
    before: &'static str,
    name: &'static str,
    character: Option<u8>,
) -> &'static str {
    let Some(key) = character else {
        return before;
    };
    if own.mapped(key) == key {
        return before;
    }
    let _ = write!(text, "{} {} ", before, name);
    write_key(text, key);
    ","
}

// Returns a key as `stty` shows it.
fn write_key(text: &mut Vec<u8>, key: u8) {
    let meta = if key < 128 { "" } else { "M-" };
    let low = key % 128;
    let (caret, sign) = if low < 32 || low == 127 {
        ("^", low ^ 64)
    } else {
        ("", low)
    };
    let _ = write!(text, "{}{}{}", meta, caret, char::from(sign));
}

// Returns the text for the side that edits lines. Without LINEMODE a server that echoes takes keys
// one by one and edits them, as a rule; if it does not echo, only the client in line mode edits
// them.
fn editing_of(link: &Link) -> &'static str {
    if link.edits_here() {
        return "lines are edited here";
    }
    if link.is_line_mode() {
        return "lines are edited here in line mode";
    }
    if link.has_linemode() || link.echoes_there() {
        return "lines are edited at the other end";
    }
    "nobody edits lines, and each key is sent at once"
}

fn place_of(is_here: bool) -> &'static str {
    if is_here { "here" } else { "at the other end" }
}
