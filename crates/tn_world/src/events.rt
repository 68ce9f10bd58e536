//! The events that may happen in a world.

use tn_client::UserCommand;
use tn_codes::{Func, Mask};
use tn_discipline::Text;
use tn_server::Editing;

/// One event: a call of an end, or a delivery of some of the bytes that are in flight.
#[derive(Debug, Drop)]
pub enum Event {
    /// The user types this key at the client.
    Key(u8),
    /// The user enters a new line at the client, which counts as the key LF.
    NewLine,
    /// The user sends this command, which counts as the key that it stands for at the server's terminal.
    Send(UserCommand),
    /// The first bytes in flight to the server arrive, or all if there are fewer.
    ToServer(usize),
    /// The first bytes in flight to the client arrive, or all if there are fewer.
    ToClient(usize),
    /// The job writes this; what does not fit into the terminal is not written.
    Write(Text),
    /// The server sends at most this number of symbols of the terminal's screen.
    Pull(usize),
    /// The job asks for an entry.
    Take,
    /// The server requests that one side edit lines.
    Wish(Editing),
    /// The server sends a forward mask, or that there is none any more.
    Mask(Option<Mask>),
    /// The client's window has this width and height, in characters.
    Resize(u16, u16),
    /// The server sets a special character, or disables it.
    SetChar(Func, Option<u8>),
    /// The client proposes a special character, or that it is disabled.
    Propose(Func, Option<u8>),
    /// The server sets or clears the terminal's flag ECHO.
    Echo(bool),
    /// The server is gone: from then on it only gives entries.
    ServerStops,
    /// The client is gone: from then on it does nothing.
    ClientStops,
}

/// The end to which bytes are on their way.
#[derive(Clone, Copy, Debug, PartialEq, Eq)]
pub enum ToWhom {
    Server,
    Client,
}
