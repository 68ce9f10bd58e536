//! The server end of a Telnet connection, with its pseudoterminal pair.
//!
//! Begin with `ServerEnd`, which one connection owns, and `Editing`, which says where its lines are
//! edited. `ServerEnd::start_lines` opens for clients that edit lines themselves.
//!
//! ```
//! let mut end = ServerEnd::start(alloc, Settings::standard(), Limit::standard(), &mut out)?;
//! end.feed(b"ls\r\0", &mut out)?; // replies to what came are appended to `out`
//! while let Some(entry) = end.take(&mut out)? {
//!     end.write(answer_to(&entry)); // at most as many bytes as find room
//!     end.pull(4096, &mut out)?; // the screen's symbols, spelled
//! }
//! ```
//!
//! It opens no socket, starts no thread and runs no job. It does not hold back a peer that types
//! faster than its job reads, but fails after 1,024 entries.
#![tactic(auto)]

pub use end::ServerEnd;
pub use faults::ServerFault;
pub use openings::{Approach, Opening};
pub use wishes::Editing;

mod end;
mod faults;
mod items;
pub mod laws;
mod openings;
mod screen;
mod sending;
mod taking;
mod terms;
mod wishes;
