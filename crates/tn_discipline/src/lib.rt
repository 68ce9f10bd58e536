//! The line discipline of a terminal in canonical mode (POSIX.1-2017, XBD 11.1): special
//! characters, the roles of keys, the half-typed line, and its echo.
//!
//! Begin with `Line`, the half-typed line that keys edit, and `Settings`, the flags and characters
//! of the terminal.
//!
//! ```
//! let mut line = Line::new(alloc, Limit::standard())?;
//! let settings = Settings::standard();
//! line.key(&settings, 0x61)?; // Effect::Kept
//! line.key(&settings, 0x0d)?; // Effect::Gives(Entry::Text("a\n")): CR is mapped to a line feed
//! ```
//!
//! It keeps no entries and no screen, and has neither noncanonical mode nor flow control; NOFLSH is
//! always set.
#![tactic(auto)]

pub use characters::{CharFault, Chars, SPECIAL, is_reserved};
pub use echo::{BELL, Symbol, echo_of, echo_of_role};
pub use half_line::{Effect, Line};
pub use keys::{Role, role_of, role_of_literal};
pub use line_limit::Limit;
pub use reads::{Entry, Sig, Text};
pub use role_table::Roles;
pub use termios::{Flags, Settings};

mod characters;
mod echo;
mod editing;
mod half_line;
mod keys;
pub mod laws;
mod line_limit;
mod reads;
mod role_table;
mod termios;
