//! The terminal of a running session: only this machine uses the server end, one message at a time.
//!
//! ```
//! let mut term = Term::start(alloc, settings, limit, approach, jobs, &mut out)?;
//! let outcome = term.handle(Message::Piece(bytes), &mut out); // `out` is to be sent to the network
//! match outcome.put {
//!     Put::Nothing => {},
//!     Put::Entry(entry) => {}, // to the foreground job
//!     Put::End => {},          // the end of its entries
//! }
//! ```
//!
//! ```text
//! Piece, HangUp, ReadFailed from the network --+
//! Take, Said from the jobs --------------------+--> Term --> bytes to the network
//! Refused, Left from each thread --------------+     |
//!                                                    +-----> entries to the foreground job
//! ```
//!
//! It moves the jobs of its table, counts what was done, and keeps how the session ends. It has no
//! handle and never blocks: it reads and writes nothing itself, runs no job, and does not hold back
//! a reader, but reports by `is_welcoming` when to.
pub use crate::server::messages::{MessageOutcome, Put, ServerMark};
pub use crate::server::progress::ServerProgress;
pub use crate::server::terminal::{MAX_PIECE, Term};

pub mod laws;
mod messages;
mod progress;
mod terminal;
