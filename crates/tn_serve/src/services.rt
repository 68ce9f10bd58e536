//! The jobs that `tn serve` gives each session. An answerer answers the lines, the ends of file and
//! the signals that its user makes, and another ticks in the background. A gateway joins the
//! session to a line service: its job in the foreground sends the service each line that the user
//! enters, and the one in the background shows the user the service's bytes.
//!
//! Begin with `Answerers`, which makes the jobs of the built-in service, or with `Joiner`, which
//! makes those of a gateway.
//!
//! ```
//! let reaction = Answerer::new(0).entry(alloc, Entry::Eof)?;
//! let jobs = Gateways::new(reader, writer, lines); // both halves of a connection, or any others
//! let jobs = Joiner::new(rt, host, port, patience, lines, hook, notes); // of a connection made by them
//! let jobs = Greeting::new(jobs, Text::from(words)); // whose user reads these words first
//! ```
//!
//! The jobs have no link to a terminal: a session passes them the typed entries. A gateway waits
//! only for its reader and its writer. A `Joiner` speaks Telnet to its service, as a client, if
//! `LineFormat::speaks_telnet` is true. A session ends its jobs. The end of the service ends only
//! the job in the background, so the owner of the session's connection hangs up, as a `Joiner` does
//! by its hook.

pub use answerers::Answerers;
pub use answering::Answerer;
pub use cutting::{Greets, HearsCut, HearsTelnet, LineFormat};
pub use dialing::{Joiner, Pacing, ServiceReader, ServiceWriter};
pub use greeting::{Greeted, Greeting};
pub use hanging_up::HangUp;
pub use joining::Gateway;
pub use joint::{Heard, Joint, Told};
pub use makers::Gateways;
pub use sending::{SendingLines, Way};
pub use showing::Showing;
pub use tn_lines::LineEnd;

mod answerers;
mod answering;
mod cutting;
mod dialing;
mod greeting;
mod hanging_up;
mod joining;
mod joint;
pub mod laws;
mod line_ends;
mod makers;
mod outbox;
mod sending;
mod showing;
mod talking;
mod telnet;
mod telnet_side;
