//! A server's sessions over connections, in threads of their own: each gets the jobs that a
//! `Service` makes.
//!
//! Begin with `Service`, the trait that gives each session its jobs, and `Serving`, the options of
//! a server.
//!
//! ```
//! let at = At { host: "127.0.0.1", port: 2323, handed: None };
//! serve(rt, alloc, &[at], serving, Never, service, &log, &mut causes)?;
//! ```
//!
//! The bytes that a connection carries are not proved: the sessions are proved for all bytes that
//! their readers give, and this crate only starts and joins them. It asks for no password and
//! encrypts nothing. A client is `tn_connect`.
#![tactic(auto)]

pub use call::{Call, Notes};
pub use conversed::Conversed;
pub use fault::ServeFault;
pub use finished::Finished;
pub use listening::At;
pub use notes::{NoteFormat, NoteSink, NoteStyle, NoteWriter};
pub use served::Served;
pub use service::Service;
pub use serving::{serve, serve_on};
pub use session::serve_connection;
pub use settings::{Serving, SessionOptions};
pub use tn_net::network::Peer;
pub use tn_net::{Hook, Host};
pub use turns::Turn;
pub use until::{Never, Until};

mod acceptor;
mod asked;
mod call;
mod caller;
mod conversed;
mod draining;
mod events;
mod fault;
mod finished;
mod hosts;
mod listening;
mod logfmt;
mod note_texts;
mod notes;
mod proxied;
mod running;
mod served;
mod service;
pub mod services;
mod serving;
mod session;
mod settings;
mod sight;
mod traffic;
mod turned;
mod turns;
mod until;
