//! What a session over a connection needs besides its threads: both sides of the connection (`Connection`), the
//! terminal (`Console`), what is typed there and what an escape character makes of it, a screen, a trace of what
//! passes, and how a job hangs up. `network` asks the network for listeners and connections; `printing` prints
//! the items of a stream.
//!
//! ```
//! let (reader, writer) = Connection::split(stream)?;
//! let (queue, throttle) = new_queue(rt, alloc)?;
//! let (outgoing, mut sending) = queue.sides::<H, W, Brand>(rt, alloc, writer, link, trace)?;
//! let sent = sending.run()?; // in a thread of its own
//!
//! let own = OwnCharacters::none();
//! let returns = ReturnKey::CrNul;
//! let keyboard = Keyboard { escape: Some(0x1d), own, editing: own, returns, may_change: true }; // ^]
//! let mut escaping = Escaping::new(keyboard);
//! escaping.take(b'a'); // Typed::Key(b'a')
//! escaping.take(0x1d); // Typed::Nothing
//! escaping.take(b'q'); // Typed::Nothing
//! escaping.take(b'\r'); // Typed::Command(EscapeCommand::Close(Next::Leaves))
//! ```
//!
//! It starts no thread and no session. The bytes that a socket or a terminal carries are not
//! proved. It is proved that both sides of a connection pass on the bytes that their stream gives
//! and takes, that the bytes sent are those that were queued, in order, and that keys of a reader
//! are its bytes.
#![tactic(auto)]

pub use attended::{Attended, Standing};
pub use client_files::{ClientFiles, PRIVATE, is_device, open_device};
pub use connection::{Closing, Connection};
pub use console::Console;
pub use deeds::About;
pub use escaping::{Echo, EscapeCommand, Escaping, Keyboard, Next, Obey, SessionInput, Typed};
pub use hook::Hook;
pub use host::Host;
pub use incoming::Incoming;
pub use keys::{Keys, Typing};
pub use line_editor::EditorSettings;
pub use line_keys::{LineKeys, LineMode};
pub use link::Link;
pub use logged::Logged;
pub use noted::{Noted, NotedWriter};
pub use outgoing::{NewQueue, Outgoing, Throttle, new_queue};
pub use own_characters::OwnCharacters;
pub use pieces::{Piece, PiecePass, PieceReceiver, PieceSender, Queue};
pub use plain_keys::PlainKeys;
pub use plain_lines::{LineSettings, PlainLines};
pub use prompt::{Edit, Prompt, PromptLine, Sequence};
pub use returns::ReturnKey;
pub use screen::Screen;
pub use sending::{Sending, Sent};
pub use sizes::Sizes;
pub use terminal::Terminal;
pub use times::stamp;
pub use tn_editor::{EditKeys, Words};
pub use trace::Trace;
pub use write_log::WriteLog;

mod attended;
mod bell;
mod client_files;
mod connection;
mod console;
mod deeds;
mod escaping;
mod half_line;
mod holding;
mod hook;
mod host;
mod incoming;
mod kept;
mod keys;
pub mod laws;
mod line_editor;
mod line_keys;
mod link;
mod logged;
pub mod network;
mod noted;
mod outgoing;
mod own_characters;
mod pieces;
mod plain_keys;
mod plain_lines;
mod presence;
pub mod printing;
mod prompt;
mod returns;
mod screen;
mod screen_log;
mod sending;
mod sizes;
mod terminal;
mod times;
mod trace;
mod trace_lines;
mod write_log;
