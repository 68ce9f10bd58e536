//! The core of a running session, at a server (`server::Term`) and at a client (`client::Core`). Each is the only
//! user of its end of the connection, and takes one message at a time.
//!
//! ```text
//! reader, writer, jobs --Message--> server::Term --> server end
//! reader, keys ---------Message--> client::Core --> client end
//! ```
//!
//! ```
//! let piece = Message::Piece(Text::from(bytes)); // bytes from the network, or keys
//! let ended = Ended::Done.or(Ended::Fault(SessionFault::Read)); // Done: the first that came counts
//! ```
//!
//! `streams` has the readers and writers that a session uses, `queue` the rule of a channel in which one puts
//! and one takes. A core has no handle, and never blocks.
#![tactic(auto)]

pub use faults::{Ended, SessionFault};
pub use messages::Message;
pub use watching::{Gate, Place, Typed};

pub mod client;
mod faults;
mod messages;
pub mod queue;
pub mod server;
pub mod streams;
mod watching;
