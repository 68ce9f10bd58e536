//! The program `tn`: takes its arguments and its streams, does the run that they ask for, and
//! returns a status.
//!
//! Begin with `run_words`, and with `Streams`, the streams of a process.
//!
//! ```
//! let link = Arc::new(alloc, Link::new())?;
//! let reader = rt.stdin();
//! let origin = KeySource::Input;
//! let editor = EditorSettings::usual();
//! let streams = Streams { origin, reader, sizes: None, stands: None, terminal: None, editor,
//!     is_journal: false, link };
//! let status = run_words(rt, alloc, Ok(words), streams, &mut rt.stdout(), &mut rt.stderr());
//! ```
//!
//! It does not set a terminal to raw mode: its starter, such as the launcher, does.
#![tactic(auto)]

pub use counting::Serves;
pub use metrics::Replacing;
pub use outcome::Outcome;
pub use outlet::Outlet;
pub use own::{EDITS_LENGTH, OWN_LENGTH, editor_settings, own_characters};
pub use program::{outcome_of_words, run_words};
pub use serving::{Joining, Noting};
pub use settings::Answering;
pub use streams::Streams;
pub use tn_connect::{EditorSettings, KeySource, Link, OwnCharacters, Screen};
pub use tn_net::network::Network;
pub use watching::Lookout;

mod banner;
mod counting;
mod files;
mod metrics;
mod outcome;
mod outlet;
mod own;
mod ports;
mod program;
mod publishing;
mod serving;
mod settings;
mod streams;
mod watching;
