//! The options of a client's connection.

use crate::news::News;
use std::alloc::Global;
use std::fs::File;
use std::sync::Arc;
use tn_discipline::Limit;
use tn_lines::LineEnd;
use tn_net::network::Dialing;
use tn_net::{EditorSettings, Link, OwnCharacters, ReturnKey};

/// The source of a client's keys.
#[derive(Clone, Copy, PartialEq, Eq)]
pub enum KeySource {
    /// A reader of which nothing else is known: each of its bytes is a key.
    Reader,
    /// Standard input, each of whose bytes is a key; it is waited for, so that the session ends though
    /// nothing comes.
    Input,
    /// Standard input at a terminal with these special characters, whose user speaks to the client itself
    /// after the escape character.
    Terminal(OwnCharacters),
}

/// The options of a client's session over a connection.
#[derive(Clone, Copy, PartialEq, Eq)]
pub struct Connecting {
    /// The port, of 1 to 65,535.
    pub port: u16,
    /// The width of the window in characters, or 0 if none is sent.
    pub width: u16,
    /// The height of the window in lines, or 0 if none is sent.
    pub height: u16,
    /// The most bytes that a line has, from 255 to 4,095.
    pub line_limit: Limit,
    pub origin: KeySource,
    /// The escape character of a terminal, if it has one.
    pub escape: Option<u8>,
    /// The bytes that RETURN sends at a terminal, if the user has chosen: else CR NUL if keys go
    /// one at a time, and CR LF after a line that was edited at the client.
    pub returns: Option<ReturnKey>,
    /// The settings of line editing at a terminal.
    pub editing: EditorSettings,
    /// The most bytes in a line that is edited at a terminal while the server neither has LINEMODE on nor
    /// suppresses GO AHEAD; `None` if keys go one at a time then.
    pub line_mode: Option<Limit>,
    /// Whether keys that come from no terminal are the bytes of a text.
    pub text: bool,
    /// The number of seconds after the end of standard input at which the server gets the end of
    /// the stream.
    pub wait: u32,
    /// The number of seconds for which the server may be silent after that; 0 for ever.
    pub patience: u32,
    /// The addresses that are tried, the source address, and the number of seconds for each.
    pub dialing: Dialing,
}

/// The options of a talk with a service that takes lines and negotiates nothing.
#[derive(Clone, Copy, PartialEq, Eq)]
pub struct Plain {
    /// The port, of 1 to 65,535.
    pub port: u16,
    /// The most bytes of a line that is typed at a terminal, from 255 to 4,095.
    pub line_limit: Limit,
    /// The settings of line editing at a terminal.
    pub editing: EditorSettings,
    pub line_end: LineEnd,
    /// The source of the lines: they are edited if it is a terminal.
    pub origin: KeySource,
    /// The escape character of a terminal, if it has one.
    pub escape: Option<u8>,
    /// The number of seconds after the end of standard input at which the service gets the end of
    /// the stream.
    pub wait: u32,
    /// The number of seconds for which the service may be silent after that; 0 for ever.
    pub patience: u32,
    /// The addresses that are tried, the source address, and the number of seconds for each.
    pub dialing: Dialing,
}

/// The files, the messages and the connection of a client's session, besides its keys and its screen.
#[derive(Drop)]
pub struct ClientContext<'a, W> {
    /// The file that gets a line for each item that comes and goes.
    pub trace: Option<File>,
    /// The pipe that brings each new size of the window, if standard input is waited for: width and
    /// height, five characters each, a space between them and a line feed after them.
    pub sizes: Option<File>,
    /// The file that gets a line once the connection stands, and one each time that the user asks
    /// for a stop: ACK or SUB, and a line feed.
    pub stands: Option<File>,
    /// The terminal, at which the client answers its user's requests.
    pub terminal: Option<File>,
    pub news: News<'a, W>,
    /// The buffer that gets the causes of a fault, a line each.
    pub causes: &'a mut Vec<u8>,
    /// The connection, as the screen has it.
    pub link: Arc<Link, Global>,
}
