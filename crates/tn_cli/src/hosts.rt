//! The user's own file of hosts, and the arguments of `tn connect` that a host of it stands for.
//!
//! Begin with `start_with`, which the program calls first, and with `HostsFault`, which says why a
//! host stands for no arguments.
//!
//! ```
//! let words = start_with(&rt, alloc, words, false, &mut rt.stdout())?;
//! ```
//!
//! The file can do no more than arguments of the command line can: the options of a host's table
//! are put before the user's own arguments, and `arguments` reads all of them. An argument of the
//! user wins over the file.

pub use expanding::{HostsFault, expand};
pub use starting::start_with;

mod assembling;
mod expanding;
mod file;
mod given;
mod places;
mod sayings;
mod starting;
