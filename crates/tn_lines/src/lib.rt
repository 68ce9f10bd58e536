//! A client for services that take lines and negotiate nothing: `tn connect --plain`.
//!
//! Begin with `Talk`, and with `Await`, which decides what a talk does next.
//!
//! ```
//! let mut lines = Lines::new(LineEnd::CrLf);
//! lines.take(b"PING\n", &mut said)?; // said: "PING\r\n"
//! let mut talk = Talk::new(alloc, LineEnd::CrLf, at_terminal);
//! let over = talk.run(&rt, &mut ready, &mut keys, &mut service, &mut connection, &mut screen)?;
//! ```
//!
//! A thread waits until keys or bytes of the service can be read, or the connection takes more. The
//! order in which that happens is not proved: what is sent and shown is proved for every order.
#![tactic(auto)]

pub use fault::TalkFault;
pub use left_edge::LeftEdge;
pub use line_ends::LineEnd;
pub use lines::Lines;
pub use read_log::ReadLog;
pub use ready::{Await, Ready, Wants};
pub use talk::{Over, Talk};

mod fault;
pub mod laws;
mod left_edge;
mod line_ends;
mod lines;
mod opening;
mod read_log;
mod ready;
mod talk;
mod unsent;
