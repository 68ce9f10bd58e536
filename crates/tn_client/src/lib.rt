//! The client end of a Telnet connection, which edits lines if its server asks for that.
//!
//! Begin with `ClientEnd`, which one connection owns, and `UserCommand`, a command that its user
//! may send.
//!
//! ```
//! let mut end = ClientEnd::start(alloc, 80, 24, Limit::standard())?;
//! end.feed(&from_network, &mut out, &mut screen)?; // answers to `out`, text to `screen`
//! end.key(0x61, &mut out, &mut screen)?; // sent, or kept and echoed, as the mode has it
//! end.send(UserCommand::Ip, &mut out)?; // interrupts what runs at the server, in each mode
//! ```
//!
//! It opens no socket and sets no terminal: keys and screen are bytes. It never proposes an option.
#![tactic(auto)]

pub use commands::UserCommand;
pub use end::ClientEnd;
pub use faults::ClientFault;

mod commands;
mod end;
mod faults;
mod items;
mod keys;
pub mod laws;
mod screen;
mod sending;
mod taking;
